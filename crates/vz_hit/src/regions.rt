//! A list of regions, from front to back.
ghost use Rattle.std.specs.Prelude.{◌≡◌, ◌<◌, ◌++◌, ◌∷◌, ◌↔◌, [], None, OnOk};
ghost use Rattle.std.specs.Prelude.{vec_len, vec_capacity};
ghost use Rattle.vz_geom.specs.Rectangle.{IsNear, plus};
ghost use Rattle.vz_placement.specs.Limits.{HasRoom};
ghost use Rattle.vz_hit.specs.Regions.{found, hit_of, HasNone};

use crate::region::{Hit, Owner, Region};
use std::alloc::Global;
use std::marker::Model;
use vz_base::Memory;
use vz_geom::{Point, Rect};

/// At least so many places are made if one is wanted: as many regions as small scenes have.
const MORE: usize = 16;

/// Regions of a display, from front to back. Contracts see them as one list. The areas are a list
/// of their own, so that a search goes through nothing else.
#[derive(Drop)]
pub struct Regions {
    areas: Vec<Rect>,
    owners: Vec<Owner>,
}

impl Model for Regions {
    ghost use Rattle.std.specs.Prelude.{List as Row};
    ghost use Rattle.vz_hit.specs.declared.region.Region.{Region};
    ghost use Rattle.vz_hit.specs.Regions.{regions_of, AreOwned};

    ghost Value = { Row Region };

    ghost view = { λ r. regions_of r.areas.items r.owners.items };

    ghost invariant = { λ r. AreOwned r.areas.items r.owners.items };
}

/// Makes places if none is left.
fn make_place<T>(list: &mut Vec<T>) -> Result<(), Memory>
    ensures place { OnOk result (vec_len list.new < vec_capacity list.new) }
    ensures same { list.new.items ≡ list.old.items }
{
    if list.len() < list.capacity() {
        return Ok(());
    }
    list.try_reserve(MORE)?;
    Ok(())
}

/// What is hit at a point of an owner's region. Conditions: the point is within the limit of
/// edges, and the shift within 52,000,000 of the origin.
fn hit_at(owner: &Owner, p: Point) -> Hit
    requires near { IsNear p }
    requires room { HasRoom 0 owner.now.shift }
    ensures { result ≡ record { id = owner.now.id; local = plus p owner.now.shift } }
{
    let shift = owner.shift;
    Hit {
        id: owner.id,
        local: Point {
            x: p.x + shift.x,
            y: p.y + shift.y,
        },
    }
}

impl Regions {
    /// No region. It takes no memory.
    pub(crate) fn new(alloc: Global) -> Regions
        ensures { result ≡ [] }
    {
        Regions {
            areas: Vec::new(alloc),
            owners: Vec::new(alloc),
        }
    }

    /// Puts a region after all others. Condition: its shift is within 52,000,000 of the origin.
    pub(crate) fn put(&mut self, region: Region) -> Result<(), Memory>
        requires { HasRoom 0 region.shift }
        ensures { OnOk result (self.new ≡ self.old ++ region ∷ []) }
    {
        make_place(&mut self.areas)?;
        make_place(&mut self.owners)?;
        self.areas.push_reserved(region.area);
        self.owners.push_reserved(Owner {
            id: region.id,
            shift: region.shift,
        });
        Ok(())
    }

    /// What is hit at a point: the first region that has it answers with its surface, and with the
    /// point moved by its shift. None is the answer exactly if no region has the point. It takes
    /// no memory.
    pub fn find(&self, p: Point) -> Option<Hit>
        ensures first { result ≡ hit_of (found self.now p) }
        ensures none { (result ≡ None) ↔ HasNone self.now p }
    {
        let areas = self.areas.as_slice();
        let owners = self.owners.as_slice();
        for at in 0..areas.len() {
            if areas[at].contains(p) {
                return Some(hit_at(&owners[at], p));
            }
        }
        None
    }
}
