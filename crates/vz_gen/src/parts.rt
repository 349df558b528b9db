//! Parts of the generated files.
ghost use Rattle.std.specs.Prelude.{◌≡◌, ◌≤ℤ◌, pos, IfOk, None};
ghost use Rattle.vz_gen.specs.Make.{colour, sink_of, local_of, range_of, frame_of};

use std::alloc::Global;
use vz_base::Memory;
use vz_frame::{
    Blend, BoxedFrame, CompositorFrame, DrawQuad, List, Listing, Material, Metadata, RenderPass,
};
use vz_geom::{Point, Rect};
use vz_ids::{EmbedToken, FrameSinkId, LocalSurfaceId, ParentAllocator, SurfaceId, SurfaceRange};
use vz_pixels::Pixel;

/// Makes a list of these values. The only error is `Memory`.
pub fn listed<T: Drop, const N: usize>(alloc: Global, values: [T; N]) -> Result<List<T>, Memory>
    ensures { IfOk result (λ list. list ≡ values) }
{
    let all = Vec::from_array(alloc, values)?;
    Ok(List::from_vec(all))
}

/// Makes a rectangle. Conditions: it lies within 64 by 64 pixels, and no side is 0.
pub fn rect(x: i32, y: i32, w: i32, h: i32) -> Rect
    requires x { (pos 0 ≤ℤ x) × (x ≤ℤ pos 64) }
    requires y { (pos 0 ≤ℤ y) × (y ≤ℤ pos 64) }
    requires w { (pos 1 ≤ℤ w) × (w ≤ℤ pos 64) }
    requires h { (pos 1 ≤ℤ h) × (h ≤ℤ pos 64) }
    ensures { result ≡ record { x = x; y = y; w = w; h = h } }
{
    Rect::new(x, y, w, h)
}

/// Makes an opaque colour.
pub fn colour(r: u8, g: u8, b: u8) -> Pixel
    ensures { result ≡ colour r g b }
{
    match Pixel::new(r, g, b, 255) {
        Some(pixel) => pixel,
        None => Pixel::black(),
    }
}

/// The sink of client `k`.
pub fn sink(k: u32) -> FrameSinkId
    ensures { result ≡ sink_of k }
{
    FrameSinkId {
        client_id: k,
        sink_id: 1,
    }
}

/// The local id of client `k`: the first one with the client's own token.
pub fn local(k: u32) -> LocalSurfaceId
    ensures { result ≡ local_of k }
{
    ParentAllocator::new(EmbedToken(k as u128)).current()
}

/// The range that ends at the surface of client `k` and has no start.
pub fn range(k: u32) -> SurfaceRange
    ensures { result ≡ range_of k }
{
    SurfaceRange {
        start: None,
        end: SurfaceId {
            sink: sink(k),
            local: local(k),
        },
    }
}

/// Makes a quad that has no clip and is visible as a whole.
pub fn quad(x: i32, area: &Rect, opacity: u8, material: Material) -> DrawQuad
    ensures { result ≡ record {
      offset = record { x = x; y = pos 0 };
      area = area.now;
      visible = area.now;
      clip = None;
      opacity = opacity;
      blend = Blend.Over;
      material = material;
    } }
{
    DrawQuad {
        offset: Point { x, y: 0 },
        area: *area,
        visible: *area,
        clip: None,
        opacity,
        blend: Blend::Over,
        material,
    }
}

/// What a frame with one pass has beside its lists.
#[derive(Clone, Copy)]
pub struct Shape {
    /// The frame token.
    pub token: u32,
    /// The number of the begin-frame that it answers, or 0 if it answers none.
    pub ack: u32,
    /// The output of the pass.
    pub output: Rect,
    /// What changed since the frame before, in the space of the pass.
    pub damage: Rect,
}

/// Makes a frame with one pass, no dependencies and no deadline of its own. The only error is
/// `Memory`.
pub fn frame(
    alloc: Global,
    shape: &Shape,
    references: List<SurfaceRange>,
    resources: List<Listing>,
    quads: List<DrawQuad>,
) -> Result<BoxedFrame, Memory>
    ensures { IfOk result (λ f. f ≡ frame_of shape.now.token shape.now.ack references resources
        shape.now.output shape.now.damage quads) }
{
    let pass = RenderPass {
        id: 1,
        output: shape.output,
        damage: shape.damage,
        quads,
    };
    let frame = CompositorFrame {
        metadata: Metadata {
            token: shape.token,
            ack: shape.ack,
            deadline: None,
            dependencies: List::new(alloc),
            references,
        },
        resources,
        passes: listed(alloc, [pass])?,
    };
    Ok(BoxedFrame::new(alloc, frame)?)
}
