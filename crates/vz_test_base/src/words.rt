//! Words of the command line.
use std::alloc::{AllocError, Global};
use vz_words::command;

/// Whether the words of a line are those of a command, as is expected.
pub fn are(alloc: Global, line: &str, expected: &str) -> bool {
    match words_of(alloc, line) {
        Ok(words) => match command(&words) {
            Some(_) => expected == "a command",
            None => expected == "no command",
        },
        Err(_) => false,
    }
}

/// The words of a line that are parted by blanks.
fn words_of(alloc: Global, line: &str) -> Result<Vec<String>, AllocError> {
    let mut words = Vec::new(alloc);
    for word in line.split_ascii_whitespace() {
        words.push(String::from_str(alloc, word)?)?;
    }
    Ok(words)
}
