//! What a call hands over: the sides of the display, and the files of the clients in one piece.
ghost use Rattle.std.specs.Prelude.{◌≡◌, ◌==◌, length, IsTrue, IfOk};
ghost use Rattle.std.specs.List.{sum};
ghost use Rattle.vz_base.specs.declared.limits.TheConstants.{GREATEST_DISPLAY_SIDE, MOST_FILES};
ghost use Rattle.vz_frame.specs.Fits.{within};
ghost use Rattle.vz_geom.specs.Display.{IsDisplaySize};
ghost use Rattle.vz_rules.specs.Command.{are_sides};
ghost use Rattle.viz_run.specs.Read.{contents};
ghost use Rattle.viz_c.specs.Calls.{is_call, cut, size_of};

use std::alloc::Global;
use vz_base::Memory;
use vz_base::limits::{GREATEST_DISPLAY_SIDE, MOST_FILES};
use vz_geom::Size;

/// Whether a display may have these sides, there are 1 to `MOST_FILES` files, and their lengths
/// fill the bytes.
pub fn is_call(w: u32, h: u32, files: &[u8], lengths: &[usize]) -> bool
    ensures { result ≡ is_call w h files.now lengths.now }
{
    are_sides(w, h) && are_few(lengths) && fill(lengths, files.len())
}

/// Whether a display may have these sides.
fn are_sides(w: u32, h: u32) -> bool
    ensures { result ≡ are_sides w h }
{
    is_side(w) && is_side(h)
}

/// Whether a display may have this side.
fn is_side(side: u32) -> bool
    ensures { result ≡ within 1 GREATEST_DISPLAY_SIDE side }
{
    1 <= side && side <= GREATEST_DISPLAY_SIDE
}

/// Whether there are 1 to `MOST_FILES` lengths.
fn are_few(lengths: &[usize]) -> bool
    ensures { result ≡ within 1 MOST_FILES (length lengths.now) }
{
    !lengths.is_empty() && lengths.len() <= MOST_FILES
}

/// Whether the lengths are together so many bytes.
fn fill(lengths: &[usize], bytes: usize) -> bool
    ensures { result ≡ (sum lengths.now == bytes) }
{
    let mut left = bytes;
    for at in 0..lengths.len() {
        let own = lengths[at];
        if own > left {
            return false;
        }
        left -= own;
    }
    left == 0
}

/// The size of a display with these sides. Condition: a display may have them.
pub fn size_of(w: u32, h: u32) -> Size
    requires { IsTrue (are_sides w h) }
    ensures size { result ≡ size_of w h }
    ensures range { IsDisplaySize result }
{
    Size {
        w: w as i32,
        h: h as i32,
    }
}

/// The files of these lengths, which come one after the other in the bytes. Of a file that does
/// not fit in the bytes it has what is there. The only error is `Memory`.
pub fn cut(alloc: Global, bytes: &[u8], lengths: &[usize]) -> Result<Vec<Vec<u8>>, Memory>
    ensures cut { IfOk result (λ files. contents files.items ≡ cut lengths.now bytes.now) }
    ensures count { IfOk result (λ files. length files.items ≡ length lengths.now) }
{
    let mut files = Vec::new(alloc);
    let mut rest = bytes;
    for place in 0..lengths.len() {
        let (front, back) = rest.split_at(lengths[place].min(rest.len()));
        files.push(Vec::from_slice(alloc, front)?)?;
        rest = back;
    }
    Ok(files)
}
