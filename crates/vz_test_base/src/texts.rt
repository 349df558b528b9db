//! Texts that are compared, and bytes that a row tells.
use std::alloc::{AllocError, Global};
use std::fmt::Display;

/// What a row expects of bytes or a text that is read, and written again as it was.
pub const AGAIN: &str = "written again as it was";

/// Whether a value reads so.
pub fn reads<T: Display>(alloc: Global, value: &T, text: &str) -> bool {
    match format!(in alloc; "{value}") {
        Ok(told) => told.as_str() == text,
        Err(_) => false,
    }
}

/// The bytes of pieces that are parted by blanks. A piece is in hexadecimal digits, with an `x` and a number behind it
/// if it is repeated. None if a piece is not, and for want of memory.
pub fn bytes_of(alloc: Global, pieces: &str) -> Option<Vec<u8>> {
    let mut bytes = Vec::new(alloc);
    for piece in pieces.split_ascii_whitespace() {
        let (digits, count) = piece.split_once('x').unwrap_or((piece, "1"));
        let part = hex::decode(alloc, digits).ok()?;
        let count = count.parse::<u32>().ok()?;
        put_times(&mut bytes, &part, count).ok()?;
    }
    Some(bytes)
}

/// Puts bytes behind others, so many times.
fn put_times(bytes: &mut Vec<u8>, part: &[u8], count: u32) -> Result<(), AllocError> {
    for _ in 0..count {
        bytes.extend_from_slice(part)?;
    }
    Ok(())
}

/// The bytes of a text in which `|` stands for a line feed, and `^` for a carriage return.
pub fn lines_of(alloc: Global, text: &str) -> Result<Vec<u8>, AllocError> {
    let mut bytes = Vec::new(alloc);
    for byte in text.bytes() {
        let meant = match byte {
            b'|' => b'\n',
            b'^' => b'\r',
            _ => byte,
        };
        bytes.push(meant)?;
    }
    Ok(bytes)
}
