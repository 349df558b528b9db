//! What the walk visits, and how much.
ghost use Rattle.std.specs.Prelude.{◌≡◌, ◌+◌, ◌++◌, ◌∷◌, [], false, OnOk};
ghost use Rattle.std.specs.Option.{option_copied};
ghost use Rattle.vz_rules.specs.Walk.{Quad as AQuad, Shows as AShowing, Enters as AnEntry};
ghost use Rattle.vz_rules.specs.Walk.{weight, too_much};

use crate::submitted::SubmittedFrame;
use std::alloc::{AllocError, Global};
use std::marker::Model;
use vz_base::limits::{MOST_ON_PATH, MOST_WEIGHT};
use vz_geom::Rect;
use vz_ids::SurfaceRange;
use vz_placement::Placement;

/// One thing that the walk visits.
#[derive(Drop)]
pub(crate) enum Kind<'b, 'a> {
    /// A quad.
    Quad,
    /// The range of a surface quad.
    Shows {
        /// The range.
        range: SurfaceRange,
        /// The frame of the surface that the range shows, or None if it shows none.
        shown: Option<&'b SubmittedFrame<'a>>,
        /// The part of the display in which the quad is visible.
        seen: Rect,
    },
    /// A surface that the walk enters.
    Enters {
        /// How many surfaces are on the path then.
        depth: usize,
        /// The frame on the surface.
        submitted: &'b SubmittedFrame<'a>,
        /// Where the surface is on the display.
        place: Placement,
    },
}

/// A visit of the walk.
#[derive(Drop)]
pub struct Visit<'b, 'a> {
    pub(crate) kind: Kind<'b, 'a>,
}

impl<'b, 'a> Model for Visit<'b, 'a> {
    ghost use Rattle.vz_rules.specs.Walk.{Visit};
    ghost use Rattle.vz_scene.specs.Visits.{visit_of};

    ghost Value = { Visit };

    ghost view = { λ m. visit_of m.kind };
}

/// The visits so far, with their weight. They contain at most one quad more than `MOST_WEIGHT`.
#[derive(Drop)]
pub struct Walked<'b, 'a> {
    visits: Vec<Visit<'b, 'a>>,
    quads: u32,
    deep: bool,
}

impl<'b, 'a> Model for Walked<'b, 'a> {
    ghost use Rattle.std.specs.Prelude.{List};
    ghost use Rattle.vz_rules.specs.Walk.{Visit};
    ghost use Rattle.vz_scene.specs.Counted.{IsCounted};

    ghost Value = { List Visit };

    ghost view = { λ t. t.visits.items };

    ghost invariant = { λ t. IsCounted t.visits.items t.quads t.deep };
}

impl<'b, 'a> Walked<'b, 'a> {
    /// Creates an empty list of visits.
    #[tactic(auto, unfolding(vz_rules::specs::Walk::weight))]
    pub fn new(alloc: Global) -> Walked<'b, 'a>
        ensures { result ≡ [] }
    {
        Walked {
            visits: Vec::new(alloc),
            quads: 0,
            deep: false,
        }
    }

    /// Appends a quad. Condition: the limit was not passed before.
    #[tactic(auto, unfolding(vz_rules::specs::Walk::weight, vz_rules::specs::Walk::too_much))]
    pub(crate) fn add_quad(&mut self) -> Result<(), AllocError>
        requires { too_much self.old ≡ false }
        ensures visits { OnOk result (self.new ≡ self.old ++ AQuad ∷ []) }
        ensures weight { OnOk result (weight self.new ≡ weight self.old + 1) }
    {
        self.visits.push(Visit { kind: Kind::Quad })?;
        self.quads += 1;
        Ok(())
    }

    /// Appends a range.
    #[tactic(auto, unfolding(vz_rules::specs::Walk::weight))]
    pub(crate) fn add_shows(
        &mut self,
        range: SurfaceRange,
        shown: Option<&'b SubmittedFrame<'a>>,
        seen: Rect,
    ) -> Result<(), AllocError>
        ensures visits { OnOk result
            (self.new ≡ self.old ++ AShowing range (option_copied shown.entry) seen ∷ []) }
        ensures weight { OnOk result (weight self.new ≡ weight self.old) }
    {
        self.visits.push(Visit {
            kind: Kind::Shows { range, shown, seen },
        })?;
        Ok(())
    }

    /// Appends a surface that the walk enters.
    #[tactic(auto, unfolding(vz_rules::specs::Walk::weight))]
    pub(crate) fn add_enters(
        &mut self,
        depth: usize,
        submitted: &'b SubmittedFrame<'a>,
        place: Placement,
    ) -> Result<(), AllocError>
        ensures visits { OnOk result (self.new
            ≡ self.old ++ AnEntry depth submitted.now place ∷ []) }
        ensures weight { OnOk result (weight self.new ≡ weight self.old) }
    {
        self.visits.push(Visit {
            kind: Kind::Enters {
                depth,
                submitted,
                place,
            },
        })?;
        if depth > MOST_ON_PATH {
            self.deep = true;
        }
        Ok(())
    }

    /// Whether the limit is passed: the visits have more than `MOST_WEIGHT` quads, or a path has
    /// more than `MOST_ON_PATH` surfaces.
    #[tactic(auto, unfolding(vz_rules::specs::Walk::too_much, vz_rules::specs::Walk::weight))]
    pub(crate) fn is_too_much(&self) -> bool
        ensures { result ≡ too_much self.now }
    {
        self.quads > MOST_WEIGHT || self.deep
    }

    /// The visits in order.
    pub fn visits(&self) -> &[Visit<'b, 'a>]
        ensures { result.now ≡ self.now }
    {
        self.visits.as_slice()
    }
}
