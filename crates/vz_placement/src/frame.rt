//! The rectangle of a frame's size.
ghost use Rattle.std.specs.Prelude.{◌≡◌, IsTrue};
ghost use Rattle.vz_geom.specs.Rectangle.{sized, meet};
ghost use Rattle.vz_frame.specs.Fits.{fits_rect};
ghost use Rattle.vz_frame.specs.Frame.{frame_size};
ghost use Rattle.vz_placement.specs.Limits.{FitsFile, IsInReach};

use vz_frame::CompositorFrame;
use vz_geom::Rect;

/// A rectangle of this size at the origin. Condition: it is one of a frame that fits a file.
fn at_origin(r: &Rect) -> Rect
    requires { IsTrue (fits_rect r.now) }
    ensures value { result ≡ sized (record { w = r.now.w; h = r.now.h }) }
    ensures reach { IsInReach result }
{
    Rect::new(0, 0, r.w(), r.h())
}

/// The rectangle of a frame's size, at the origin. Condition: the frame fits a message file.
pub fn frame_rect(frame: &CompositorFrame) -> Rect
    requires { FitsFile frame.now }
    ensures value { result ≡ sized (frame_size frame.now) }
    ensures reach { IsInReach result }
{
    match frame.root_pass() {
        None => Rect::empty(),
        Some(pass) => at_origin(&pass.output),
    }
}

/// The part of a rectangle that is inside a frame's size. It may be empty. Condition: the frame
/// fits a message file.
pub fn inside_frame(frame: &CompositorFrame, r: &Rect) -> Rect
    requires { FitsFile frame.now }
    ensures value { result ≡ meet (sized (frame_size frame.now)) r.now }
    ensures reach { IsInReach result }
{
    frame_rect(frame).intersect(r)
}
