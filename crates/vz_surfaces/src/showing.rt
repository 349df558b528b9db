//! Which surface a range shows.
ghost use Rattle.std.specs.Prelude.{◌≡◌};
ghost use Rattle.std.specs.Option.{option_copied};
ghost use Rattle.vz_ids.specs.Ids.{same_group};
ghost use Rattle.vz_surfaces.specs.Chains.{IsRising, chain_at, that_passes, starts_from, newest_to, newest_from, shown_link};

use crate::groups::{Groups, Link};
use crate::table::Table;
use vz_ids::{SurfaceId, SurfaceRange};

/// Whether a surface of the end's group is not older than the start of the range. If the start is
/// in another group or there is none, it is.
fn starts_from(range: &SurfaceRange, id: &SurfaceId) -> bool
    ensures { result ≡ starts_from range.now.start range.now.end id.now }
{
    match range.start {
        None => true,
        Some(start) => !start.same_group(&range.end) || id.is_at_least(&start),
    }
}

/// The newest surface with an active frame in the end's group that is not newer than the end and,
/// if the start is in that group, not older than the start. None if there is none.
fn newest_in<'a>(groups: &'a Groups, table: &Table, range: &SurfaceRange) -> Option<&'a Link>
    requires { IsRising (chain_at groups.now range.now.end) }
    ensures { option_copied result ≡ that_passes (starts_from range.now.start range.now.end)
        (newest_to table.now groups.now range.now.end) }
{
    match groups.newest_up_to(&range.end, table) {
        None => None,
        Some(link) => {
            if starts_from(range, &link.id) {
                Some(link)
            } else {
                None
            }
        }
    }
}

/// If the start of the range is in another group than the end: the newest surface with an active
/// frame in the start's group that is not older than the start. Otherwise None.
fn newest_from<'a>(groups: &'a Groups, table: &Table, range: &SurfaceRange) -> Option<&'a Link>
    ensures { option_copied result
        ≡ newest_from table.now groups.now range.now.start range.now.end }
{
    match range.start {
        None => None,
        Some(start) => {
            if start.same_group(&range.end) {
                return None;
            }
            match groups.newest(&start, table) {
                None => None,
                Some(link) => {
                    if link.id.is_at_least(&start) {
                        Some(link)
                    } else {
                        None
                    }
                }
            }
        }
    }
}

/// The surface that a range shows, or None.
pub(crate) fn shown_by<'a>(
    groups: &'a Groups,
    table: &Table,
    range: &SurfaceRange,
) -> Option<&'a Link>
    requires { IsRising (chain_at groups.now range.now.end) }
    ensures { option_copied result ≡ shown_link table.now groups.now range.now }
{
    match newest_in(groups, table, range) {
        Some(link) => Some(link),
        None => newest_from(groups, table, range),
    }
}
