//! Paints a whole picture.
ghost use Rattle.std.specs.Prelude.{◌≡◌, ◌<◌, IfOk};
ghost use Rattle.vz_geom.specs.Display.{IsDisplaySize};
ghost use Rattle.viz_c.specs.Staging.{IsShot};

use crate::solo::SoloPicture;
use std::alloc::Global;
use std::sync::ledger::{Blank, Ledger};
use vz_base::Memory;
use vz_buffers::{Buffer, Steps};
use vz_geom::{Rect, Size};
use vz_paint::paint_alone;

/// The pixels of a picture, and the rectangle that changed since the picture before.
#[derive(Drop)]
pub struct Shot {
    pub buffer: Buffer,
    pub damage: Rect,
}

/// Paints a whole picture of this size. `blank` makes the counter of painted pixels. The only error
/// is `Memory`.
pub fn shoot<L: Ledger>(
    alloc: Global,
    blank: Blank,
    size: Size,
    picture: &SoloPicture,
) -> Result<Shot, Memory>
    requires name { blank.name ≡ L.name }
    requires parts { blank.parts ≡ L.parts }
    requires owned { 0 < L.parts }
    requires sides { IsDisplaySize size }
    requires same { picture.now.flat.size ≡ size }
    ensures { IfOk result (λ shot. IsShot picture.now.flat shot) }
{
    let flat = picture.flat();
    let mut steps = Steps::<L>::new(blank);
    let mut buffer = Buffer::new(alloc, size, &mut steps)?;
    let area = Rect::of_display(size);
    paint_alone(alloc, flat.ops(), &mut buffer, area, &mut steps)?;
    Ok(Shot {
        buffer,
        damage: flat.damage(),
    })
}
