//! The sides of the display, and a point on it.
ghost use Rattle.std.specs.Prelude.{◌≡◌, ◌<◌, pos, IsTrue};
ghost use Rattle.vz_base.specs.declared.limits.TheConstants.{GREATEST_DISPLAY_SIDE};
ghost use Rattle.vz_geom.specs.Display.{IsDisplaySize};
ghost use Rattle.vz_rules.specs.Command.{are_sides};

use vz_geom::{Point, Size};

/// The size of a display with these sides, in pixels. Condition: the command line may give them.
pub fn size_of(width: u32, height: u32) -> Size
    requires { IsTrue (are_sides width height) }
    ensures size { result ≡ record { w = pos width; h = pos height } }
    ensures range { IsDisplaySize result }
{
    Size {
        w: width as i32,
        h: height as i32,
    }
}

/// The point in this column and row, from 0 on. Condition: both are below the greatest side that a
/// display may have.
pub fn point_of(x: u32, y: u32) -> Point
    requires column { x < GREATEST_DISPLAY_SIDE }
    requires row { y < GREATEST_DISPLAY_SIDE }
    ensures { result ≡ record { x = pos x; y = pos y } }
{
    Point {
        x: x as i32,
        y: y as i32,
    }
}
