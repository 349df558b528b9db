//! What a message file holds, in words.
use crate::texts::bytes_of;
use std::alloc::{AllocError, Global};
use vz_codec::decode;
use vz_frame::{ClientFile, CompositorFrame, Message, RenderPass};

/// Whether the bytes of a file hold what is expected.
pub fn are(alloc: Global, pieces: &str, expected: &str) -> bool {
    let Some(bytes) = bytes_of(alloc, pieces) else {
        return false;
    };
    match decode(alloc, &bytes) {
        Ok(file) => is_told(alloc, &file, expected),
        Err(_) => false,
    }
}

/// Whether a file is told so.
fn is_told(alloc: Global, file: &ClientFile, expected: &str) -> bool {
    let mut told = String::new(alloc);
    put_file(&mut told, file).is_ok() && told.as_str() == expected
}

/// Tells a file.
fn put_file(out: &mut String, file: &ClientFile) -> Result<(), AllocError> {
    write!(out, "format {} {:?}", file.format, file.sink)?;
    for message in &file.messages {
        put_message(out, message)?;
    }
    Ok(())
}

/// Tells a message.
fn put_message(out: &mut String, message: &Message) -> Result<(), AllocError> {
    match message {
        Message::Upload { id, block } => write!(out, "; Upload {id} {:?}", block.pixels()),
        Message::Submit { local, frame } => {
            write!(out, "; Submit {local:?}")?;
            put_frame(out, frame.as_frame())
        }
        Message::DidNotProduce(number) => write!(out, "; DidNotProduce {number}"),
        Message::Reclaim => out.push_str("; Reclaim"),
        Message::SetRoot(local) => write!(out, "; SetRoot {local:?}"),
        Message::Hierarchy { parent, child } => write!(out, "; Hierarchy {parent:?} {child:?}"),
        Message::Await => out.push_str("; Await"),
        Message::Close => out.push_str("; Close"),
    }
}

/// Tells a frame.
fn put_frame(out: &mut String, frame: &CompositorFrame) -> Result<(), AllocError> {
    let data = &frame.metadata;
    write!(
        out,
        ", token {} ack {} {:?}",
        data.token, data.ack, data.deadline
    )?;
    write!(
        out,
        " {:?} {:?}",
        data.dependencies.as_slice(),
        data.references.as_slice()
    )?;
    write!(out, " {:?}", frame.resources.as_slice())?;
    for pass in &frame.passes {
        put_pass(out, pass)?;
    }
    Ok(())
}

/// Tells a pass.
fn put_pass(out: &mut String, pass: &RenderPass) -> Result<(), AllocError> {
    write!(
        out,
        ", pass {} {:?} {:?}",
        pass.id, pass.output, pass.damage
    )?;
    write!(out, " {:?}", pass.quads.as_slice())
}
