//! The area of an occluder.
ghost use Rattle.std.specs.Prelude.{◌≡◌};

use std::default::Default;
use std::marker::Model;
use vz_geom::Rect;

/// How many of them take no memory of the allocator.
pub(crate) const FEW_COVERS: usize = 32;

/// The area of an occluder.
#[derive(Clone, Copy)]
pub(crate) struct Cover {
    area: Rect,
}

impl Model for Cover {
    ghost use Rattle.vz_geom.specs.Rectangle.{Rectangle};

    ghost Value = { Rectangle };

    ghost view = { λ c. c.area };

    ghost inverse = { λ r. record { area = r } };
}

impl Cover {
    /// The cover of an area.
    pub(crate) fn new(area: Rect) -> Cover
        ensures { result ≡ area }
    {
        Cover { area }
    }

    /// Its area.
    pub(crate) fn area(&self) -> &Rect
        ensures { result.now ≡ self.now }
    {
        &self.area
    }
}

/// The empty area stands in places that are not used.
impl Default for Cover {
    fn default() -> Cover {
        Cover {
            area: Rect::empty(),
        }
    }
}
