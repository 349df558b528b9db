//! The plan of a worked row: one client with three submissions.
ghost use Rattle.std.specs.Prelude.{◌≡◌, ◌<◌, ◌≤◌, ◌≤ℤ◌, pos, length, IfOk};

use crate::plans::all_fit;
use std::alloc::Global;
use std::test::Fail;
use vz_base::Memory;
use vz_frame::{
    Blend, BoxedFrame, ClientFile, CompositorFrame, DrawQuad, List, Material, Message, Metadata,
    RenderPass,
};
use vz_geom::{Point, Rect, Size};
use vz_ids::{EmbedToken, FrameSinkId, ParentAllocator};
use vz_pixels::Pixel;
use vz_rules::Plan;

/// A list of one value.
fn one<T: Drop>(alloc: Global, value: T) -> Result<List<T>, Memory> {
    let mut all = Vec::with_capacity(alloc, 1)?;
    all.push_reserved(value);
    Ok(List::from_vec(all))
}

/// A frame with one red quad, 4 pixels wide and `high` pixels high.
fn frame(alloc: Global, high: i32) -> Result<CompositorFrame, Memory>
    requires { (pos 1 ≤ℤ high) × (high ≤ℤ pos 64) }
{
    let red = match Pixel::new(255, 0, 0, 255) {
        Some(pixel) => pixel,
        None => Pixel::black(),
    };
    let quad = DrawQuad {
        offset: Point { x: 0, y: 0 },
        area: Rect::new(1, 0, 2, 2),
        visible: Rect::new(1, 0, 2, 2),
        clip: None,
        opacity: 255,
        blend: Blend::Over,
        material: Material::Solid(red),
    };
    let pass = RenderPass {
        id: 1,
        output: Rect::new(0, 0, 4, high),
        damage: Rect::new(0, 0, 4, high),
        quads: one(alloc, quad)?,
    };
    Ok(CompositorFrame {
        metadata: Metadata {
            token: 7,
            ack: 0,
            deadline: None,
            dependencies: List::new(alloc),
            references: List::new(alloc),
        },
        resources: List::new(alloc),
        passes: one(alloc, pass)?,
    })
}

/// A submission to the client's first surface.
fn submission(alloc: Global, high: i32) -> Result<Message, Memory>
    requires { (pos 1 ≤ℤ high) × (high ≤ℤ pos 64) }
{
    Ok(Message::Submit {
        local: ParentAllocator::new(EmbedToken(1)).current(),
        frame: BoxedFrame::new(alloc, frame(alloc, high)?)?,
    })
}

/// Three submissions, of which the second has another size.
fn submissions(alloc: Global) -> Result<Vec<Message>, Memory> {
    let first = submission(alloc, 2)?;
    let second = submission(alloc, 3)?;
    let third = submission(alloc, 2)?;
    let messages = Vec::from_array(alloc, [first, second, third])?;
    Ok(messages)
}

/// The plan of one client with three submissions, on a display of 4 by 2.
pub(crate) fn plan(alloc: Global) -> Result<Plan, Fail>
    ensures { IfOk result (λ p. 1 ≤ length p.files) }
{
    let messages = submissions(alloc)?;
    let plan = plan_of(alloc, messages)?;
    Ok(plan)
}

/// The plan of one client with these messages, on a display of 4 by 2.
pub(crate) fn plan_of(alloc: Global, messages: Vec<Message>) -> Result<Plan, Fail>
    ensures { IfOk result (λ p. length p.files ≡ 1) }
{
    let mut files = Vec::new(alloc);
    files.push(ClientFile {
        format: 1,
        sink: FrameSinkId {
            client_id: 1,
            sink_id: 1,
        },
        messages: List::from_vec(messages),
    })?;
    if files.len() != 1 || !all_fit(&files) {
        return Err("no plan")?;
    }
    match Plan::new(files, Size { w: 4, h: 2 }) {
        Ok(plan) => Ok(plan),
        Err(_) => Err("two files have one sink")?,
    }
}
