//! Files of a shelf in memory.
use std::alloc::{AllocError, Global};
use std::fs;
use std::rt::Files;

/// A file: its name and its bytes.
pub type File = (String, Vec<u8>);

/// The bytes of the first file of this name.
pub fn find<'f>(files: &'f [File], name: &str) -> Option<&'f [u8]> {
    for file in files {
        if file.0.as_str() == name {
            return Some(file.1.as_slice());
        }
    }
    None
}

/// The same files once more.
pub fn copies(alloc: Global, files: &[File]) -> Result<Vec<File>, AllocError> {
    let mut all = Vec::new(alloc);
    for file in files {
        let name = String::from_str(alloc, &file.0)?;
        all.push((name, Vec::from_slice(alloc, &file.1)?))?;
    }
    Ok(all)
}

/// Puts the file that a text tells behind others: its name, a blank, and its bytes in hexadecimal
/// digits. Answers whether the text tells one.
pub fn put_written(alloc: Global, files: &mut Vec<File>, text: &str) -> Result<bool, AllocError> {
    let (name, digits) = text.split_once(' ').unwrap_or((text, ""));
    let Ok(bytes) = hex::decode(alloc, digits) else {
        return Ok(false);
    };
    files.push((String::from_str(alloc, name)?, bytes))?;
    Ok(true)
}

/// Puts the file that a text tells behind others: its name and its pieces, parted by blanks. A piece
/// is in hexadecimal digits, with an `x` and a number behind it where it is repeated. Answers whether
/// the text tells one.
pub fn put_packed(alloc: Global, files: &mut Vec<File>, text: &str) -> Result<bool, AllocError> {
    let (name, pieces) = text.split_once(' ').unwrap_or((text, ""));
    let mut bytes = Vec::new(alloc);
    for piece in pieces.split_ascii_whitespace() {
        let (digits, count) = piece.split_once('x').unwrap_or((piece, "1"));
        let Ok(count) = count.parse::<u32>() else {
            return Ok(false);
        };
        let Ok(part) = hex::decode(alloc, digits) else {
            return Ok(false);
        };
        put_times(&mut bytes, &part, count)?;
    }
    files.push((String::from_str(alloc, name)?, bytes))?;
    Ok(true)
}

/// Puts bytes behind others, so many times.
fn put_times(bytes: &mut Vec<u8>, part: &[u8], count: u32) -> Result<(), AllocError> {
    for _ in 0..count {
        bytes.extend_from_slice(part)?;
    }
    Ok(())
}

/// Puts the file that a text tells behind others: its name, a blank, and how many bytes it has, all
/// of which are 1. Answers whether the text tells one.
pub fn put_ones(alloc: Global, files: &mut Vec<File>, text: &str) -> Result<bool, AllocError> {
    let (name, count) = text.split_once(' ').unwrap_or((text, ""));
    let Ok(count) = count.parse::<u32>() else {
        return Ok(false);
    };
    let bytes = vec![in alloc; 1; count as usize]?;
    files.push((String::from_str(alloc, name)?, bytes))?;
    Ok(true)
}

/// Puts the file that a text tells behind others: its name, a blank, and its path in the folder that
/// the program runs in. Answers whether it is there.
pub fn put_read<R: Files + AllocGlobal>(
    rt: &R,
    files: &mut Vec<File>,
    text: &str,
) -> Result<bool, AllocError> {
    let (name, path) = text.split_once(' ').unwrap_or((text, ""));
    let Ok(bytes) = fs::read(rt, path) else {
        return Ok(false);
    };
    files.push((String::from_str(rt.alloc(), name)?, bytes))?;
    Ok(true)
}
