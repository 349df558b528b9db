//! A child client: a tile that moves in front of one colour.
ghost use Rattle.std.specs.Prelude.{◌≡◌, ◌≤◌, ◌<◌, ◌+◌, ◌++◌, [], ◌∷◌, IfOk, OnOk};
ghost use Rattle.vz_gen.specs.Make.{child_frame, child_file, round_of, rounds_from, resource_of, damage_of, block_of, child_quads};

use crate::parts::{Shape, colour, frame, listed, local, quad, rect, sink};
use std::alloc::Global;
use vz_base::Memory;
use vz_base::limits::MOST_ROUNDS;
use vz_frame::{BoxedFrame, ClientFile, DrawQuad, List, Listing, Material, Message};
use vz_geom::Rect;
use vz_pixels::PixelBlock;

/// How many messages a child sends in a round.
const MESSAGES_IN_A_ROUND: usize = 4;

/// The id of the resource that a child uploads in a round.
fn resource(r: u32) -> u32
    ensures { result ≡ resource_of r }
{
    1 + r % 2
}

/// What changes in a round: everything in the first one, and later the tile's old and new
/// positions.
fn damage(r: u32) -> Rect
    requires { 1 ≤ r }
    ensures { result ≡ damage_of r }
{
    if r == 1 {
        rect(0, 0, 32, 32)
    } else if r % 8 == 0 {
        rect(0, 0, 32, 4)
    } else {
        rect(4 * ((r - 1) % 8) as i32, 0, 8, 4)
    }
}

/// The block of a round: 4 by 4 pixels of one red.
fn block(alloc: Global, r: u32) -> Result<PixelBlock, Memory>
    ensures { IfOk result (λ b. b ≡ block_of r) }
{
    let red = colour((r % 256) as u8, 0, 0);
    let pixels = vec![in alloc; red; 16]?;
    PixelBlock::of_pixels(alloc, 4, 4, pixels)
}

/// The quads of a round, from front to back.
fn quads(alloc: Global, k: u32, r: u32) -> Result<List<DrawQuad>, Memory>
    requires { (2 ≤ k) × (k ≤ 3) }
    ensures { IfOk result (λ l. l ≡ child_quads k r) }
{
    let tile = Material::Tile {
        resource: resource(r),
        tx: 0,
        ty: 0,
    };
    let ground = Material::Solid(colour(0, 0, (64 * (k - 1)) as u8));
    listed(
        alloc,
        [
            quad(4 * (r % 8) as i32, &rect(0, 0, 4, 4), 255, tile),
            quad(0, &rect(0, 0, 32, 32), 255, ground),
        ],
    )
}

/// The frame of a round.
fn child_frame(alloc: Global, k: u32, r: u32) -> Result<BoxedFrame, Memory>
    requires client { (2 ≤ k) × (k ≤ 3) }
    requires round { 1 ≤ r }
    ensures { IfOk result (λ f. f ≡ child_frame k r) }
{
    let shape = Shape {
        token: r,
        ack: r,
        output: rect(0, 0, 32, 32),
        damage: damage(r),
    };
    let listing = Listing {
        id: resource(r),
        w: 4,
        h: 4,
    };
    let resources = listed(alloc, [listing])?;
    let quads = quads(alloc, k, r)?;
    frame(alloc, &shape, List::new(alloc), resources, quads)
}

/// Appends the messages of a round.
fn add_round(alloc: Global, k: u32, r: u32, messages: &mut Vec<Message>) -> Result<(), Memory>
    requires client { (2 ≤ k) × (k ≤ 3) }
    requires round { 1 ≤ r }
    ensures { OnOk result (messages.new.items ≡ messages.old.items ++ round_of k r) }
{
    let upload = Message::Upload {
        id: resource(r),
        block: block(alloc, r)?,
    };
    let submit = Message::Submit {
        local: local(k),
        frame: child_frame(alloc, k, r)?,
    };
    messages.push(Message::Await)?;
    messages.push(Message::Reclaim)?;
    messages.push(upload)?;
    messages.push(submit)?;
    Ok(())
}

/// Makes the message file of child `k` for `n` rounds. The only error is `Memory`.
pub fn child_file(alloc: Global, n: u32, k: u32) -> Result<ClientFile, Memory>
    requires rounds { n ≤ MOST_ROUNDS }
    requires client { (2 ≤ k) × (k ≤ 3) }
    ensures { IfOk result (λ f. f ≡ child_file n k) }
{
    let mut messages = Vec::with_capacity(alloc, MESSAGES_IN_A_ROUND * n as usize)?;
    for r in 0..n {
        add_round(alloc, k, r + 1, &mut messages)?;
    }
    Ok(ClientFile {
        format: 1,
        sink: sink(k),
        messages: List::from_vec(messages),
    })
}
