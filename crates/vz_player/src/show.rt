//! Shows pictures on a display.
ghost use Rattle.std.specs.Prelude.{◌≡◌, is_some, IfOk, IfSome, OnOk};
ghost use Rattle.std.specs.Option.{option_map};
ghost use Rattle.vz_player.specs.Played.{Shows, Costs};

use std::alloc::Global;
use std::sync::ledger::Ledger;
use std::thread::Threads;
use vz_base::Memory;
use vz_buffers::Steps;
use vz_display::Display;
use vz_machine::Picture;

/// Removes what is occluded in a picture and shows it, if there is one, and returns whether there
/// was one. Condition: it has the display's size. The only error is `Memory`; the display may not
/// be used after it.
pub fn show_some<P: Picture + Drop, L: Ledger, R: Threads + Sync>(
    rt: &R,
    alloc: Global,
    picture: Option<P>,
    display: &mut Display,
    steps: &mut Steps<L>,
) -> Result<bool, Memory>
    requires { IfSome picture (λ p. (P.pictured p).size ≡ display.old.shown.turns.size) }
    ensures display { OnOk result (Shows P.pictured picture display.old.shown display.new.shown) }
    ensures counted { OnOk result (Costs P.pictured picture display.old.shown steps.old steps.new) }
    ensures drawn { IfOk result (λ drawn. drawn ≡ is_some (option_map P.pictured picture)) }
{
    let Some(picture) = picture else {
        return Ok(false);
    };
    let thin = picture.occlude(alloc)?;
    display.show(rt, alloc, &thin, steps)?;
    Ok(true)
}
