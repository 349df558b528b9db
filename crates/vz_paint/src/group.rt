//! The groups that are open while rows are painted.
ghost use Rattle.std.specs.Prelude.{◌≡◌, ◌≤◌, ◌<◌, ℕ, length, slice_index_or, IfOk};
ghost use Rattle.vz_pixels.specs.Colour.{transparent};

use crate::span::level;
use std::alloc::Global;
use vz_base::Memory;
use vz_frame::Blend;
use vz_geom::Rect;
use vz_pixels::Pixel;

/// A group that is open: the pixels of its rows, one row after the other, and how they are blended
/// with those below them.
#[derive(Drop)]
pub(crate) struct OpenGroup {
    pub(crate) pixels: Vec<Pixel>,
    pub(crate) area: Rect,
    pub(crate) opacity: u8,
    pub(crate) mode: Blend,
}

impl OpenGroup {
    /// A group with so many pixels. The only error is `Memory`.
    pub(crate) fn new(alloc: Global, count: usize) -> Result<OpenGroup, Memory>
        ensures { IfOk result (λ g. length g.pixels.items ≡ count) }
    {
        let pixels = vec![in alloc; Pixel::transparent(); count]?;
        Ok(OpenGroup {
            pixels,
            area: Rect::empty(),
            opacity: 0,
            mode: Blend::Over,
        })
    }
}

/// Makes the first `count` pixels transparent.
fn clear(pixels: &mut [Pixel], count: usize)
    requires { count ≤ length pixels.old }
    ensures long { length pixels.new ≡ length pixels.old }
    ensures clear { (k : ℕ) → k < count → slice_index_or pixels.new k transparent ≡ transparent }
{
    level(&mut pixels[..count], Pixel::transparent());
}

/// Opens a group: its first `count` pixels begin transparent.
pub(crate) fn begin(group: &mut OpenGroup, count: usize, area: &Rect, opacity: u8, mode: Blend)
    requires { count ≤ length group.old.pixels.items }
    ensures long { length group.new.pixels.items ≡ length group.old.pixels.items }
    ensures clear { (k : ℕ) → k < count → slice_index_or group.new.pixels.items k
        transparent ≡ transparent }
    ensures area { group.new.area ≡ area.now }
    ensures opacity { group.new.opacity ≡ opacity }
    ensures mode { group.new.mode ≡ mode }
{
    clear(group.pixels.as_mut_slice(), count);
    group.area = *area;
    group.opacity = opacity;
    group.mode = mode;
}
