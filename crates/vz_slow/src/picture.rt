//! The picture of a draw.
ghost use Rattle.std.specs.Prelude.{◌≡◌, length, IfSome};
ghost use Rattle.std.specs.Option.{option_map};
ghost use Rattle.vz_buffers.specs.Canvas.{pixel_count};
ghost use Rattle.vz_geom.specs.Display.{IsDisplaySize};
ghost use Rattle.vz_slow.specs.Pictures.{CoversDamage, pictured};

use vz_geom::Size;
use vz_machine::PixelPicture;
use vz_pixels::Pixel;
use vz_rules::Reply;

/// The picture of what was drawn, or None if the reply is not Drawn. Conditions: the size is that
/// of a display, there is a pixel for each point if there are pixels, and the damage is on the
/// display.
pub(crate) fn picture_of(
    size: Size,
    reply: &Reply,
    pixels: Option<Vec<Pixel>>,
) -> Option<PixelPicture>
    requires sides { IsDisplaySize size }
    requires all { IfSome pixels (λ v. length v.items ≡ pixel_count size) }
    requires inside { CoversDamage size reply.now }
    ensures { result ≡ pictured size reply.now (option_map (λ v. v.items) pixels) }
{
    match reply {
        Reply::Drawn(damage) => match pixels {
            None => None,
            Some(pixels) => Some(PixelPicture::new(size, pixels, *damage)),
        },
        _ => None,
    }
}
