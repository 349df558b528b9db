//! The last aggregation, with its surfaces and ranges sorted, so that each is found fast.
ghost use Rattle.std.specs.Prelude.{◌≡◌, IfOk};
ghost use Rattle.std.specs.Option.{option_copied};
ghost use Rattle.vz_rules.specs.Damage.{index_in, shows_other, is_switched};
ghost use Rattle.vz_scene.specs.Order.{HasNumbers, HasShown};

use crate::aggregation::Aggregation;
use crate::submitted::SubmittedFrame;
use std::alloc::{AllocError, Global};
use std::collections::BTreeMap;
use std::marker::Model;
use vz_ids::{SurfaceId, SurfaceRange};

/// The last aggregation, with sorted maps of the number of each surface and of what each range
/// showed.
#[derive(Drop)]
pub(crate) struct Index<'l> {
    last: &'l Aggregation,
    numbers: BTreeMap<SurfaceId, u32>,
    shown: BTreeMap<SurfaceRange, Option<SurfaceId>>,
}

impl<'l> Model for Index<'l> {
    ghost use Rattle.vz_rules.specs.World.{Aggregation as Remembered};
    ghost use Rattle.vz_scene.specs.Order.{HasNumbers, HasShown};

    ghost Value = { Remembered };

    ghost view = { λ i. i.last.now };

    ghost invariant = { λ i. HasNumbers i.numbers i.last.now.indices × HasShown i.shown i.last.now.ranges };
}

/// The number of each surface's frame.
fn numbers_of(
    alloc: Global,
    pairs: &[(SurfaceId, u32)],
) -> Result<BTreeMap<SurfaceId, u32>, AllocError>
    ensures { IfOk result (λ m. HasNumbers m pairs.now) }
{
    let mut numbers = BTreeMap::new(alloc);
    let mut k = pairs.len();
    while k > 0 {
        k -= 1;
        let pair = &pairs[k];
        numbers.insert(pair.0, pair.1)?;
    }
    Ok(numbers)
}

/// What each range showed.
fn shown_of(
    alloc: Global,
    pairs: &[(SurfaceRange, Option<SurfaceId>)],
) -> Result<BTreeMap<SurfaceRange, Option<SurfaceId>>, AllocError>
    ensures { IfOk result (λ m. HasShown m pairs.now) }
{
    let mut shown = BTreeMap::new(alloc);
    let mut k = pairs.len();
    while k > 0 {
        k -= 1;
        let pair = &pairs[k];
        shown.insert(pair.0, pair.1)?;
    }
    Ok(shown)
}

/// Whether a range showed nothing before, or another surface than now.
fn shows_other(before: Option<SurfaceId>, now: Option<&SubmittedFrame<'_>>) -> bool
    ensures { result ≡ shows_other before (option_copied now.entry) }
{
    match before {
        None => true,
        Some(id) => match now {
            None => true,
            Some(submitted) => id != submitted.id,
        },
    }
}

impl<'l> Index<'l> {
    /// Makes the sorted maps of an aggregation.
    pub(crate) fn new(alloc: Global, last: &'l Aggregation) -> Result<Index<'l>, AllocError>
        ensures { IfOk result (λ i. i ≡ last.now) }
    {
        Ok(Index {
            last,
            numbers: numbers_of(alloc, &last.indices)?,
            shown: shown_of(alloc, &last.ranges)?,
        })
    }

    /// The number of the frame that was active on this surface at the last aggregation, or 0 if
    /// none was.
    pub(crate) fn index_in(&self, submitted: &SubmittedFrame<'_>) -> u32
        ensures { result ≡ index_in self.now submitted.now }
    {
        match self.numbers.get(&submitted.id) {
            None => 0,
            Some(number) => *number,
        }
    }

    /// Whether a range was not met in the last aggregation, or showed nothing or another surface
    /// than now.
    pub(crate) fn is_switched(&self, range: &SurfaceRange, now: Option<&SubmittedFrame<'_>>) -> bool
        ensures { result ≡ is_switched self.now range.now (option_copied now.entry) }
    {
        match self.shown.get(range) {
            None => true,
            Some(before) => shows_other(*before, now),
        }
    }
}
