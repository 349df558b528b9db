//! The page: two children side by side, on white.
ghost use Rattle.std.specs.Prelude.{◌≡◌, IfOk};
ghost use Rattle.vz_gen.specs.Make.{page, page_file, page_quads};

use crate::parts::{Shape, colour, frame, listed, local, quad, range, rect, sink};
use std::alloc::Global;
use vz_base::Memory;
use vz_frame::{BoxedFrame, ClientFile, DrawQuad, List, Material, Message};

/// The quads of the page, from front to back.
fn quads(alloc: Global) -> Result<List<DrawQuad>, Memory>
    ensures { IfOk result (λ l. l ≡ page_quads) }
{
    let half = rect(0, 0, 32, 32);
    let first = Material::Surface {
        range: range(2),
        background: colour(0, 0, 0),
    };
    let second = Material::Surface {
        range: range(3),
        background: colour(0, 0, 0),
    };
    let white = Material::Solid(colour(255, 255, 255));
    listed(
        alloc,
        [
            quad(0, &half, 255, first),
            quad(32, &half, 128, second),
            quad(0, &rect(0, 0, 64, 32), 255, white),
        ],
    )
}

/// The page's frame.
fn page(alloc: Global) -> Result<BoxedFrame, Memory>
    ensures { IfOk result (λ f. f ≡ page) }
{
    let whole = rect(0, 0, 64, 32);
    let shape = Shape {
        token: 1,
        ack: 0,
        output: whole,
        damage: whole,
    };
    let references = listed(alloc, [range(2), range(3)])?;
    let quads = quads(alloc)?;
    frame(alloc, &shape, references, List::new(alloc), quads)
}

/// Makes the message file of the page. The only error is `Memory`.
pub fn page_file(alloc: Global) -> Result<ClientFile, Memory>
    ensures { IfOk result (λ f. f ≡ page_file) }
{
    let submit = Message::Submit {
        local: local(1),
        frame: page(alloc)?,
    };
    let messages = listed(
        alloc,
        [
            Message::Hierarchy {
                parent: sink(1),
                child: sink(2),
            },
            Message::Hierarchy {
                parent: sink(1),
                child: sink(3),
            },
            submit,
            Message::SetRoot(local(1)),
        ],
    )?;
    Ok(ClientFile {
        format: 1,
        sink: sink(1),
        messages,
    })
}
