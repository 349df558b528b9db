//! Frames whose names are resolved once: each pass quad knows the place of its pass, and each
//! tile quad the place of its listed resource. In a frame of few passes and resources each name is
//! searched for instead, which takes no memory.
ghost use Rattle.std.specs.Prelude.{◌≡◌, ◌≤◌, Some, length, slice_get, IfOk};
ghost use Rattle.vz_frame.specs.declared.frame.RenderPass.{RenderPass as Pass};
ghost use Rattle.vz_frame.specs.declared.frame.DrawQuad.{DrawQuad as Quad};
ghost use Rattle.vz_surfaces.specs.Names.{pass_place, listing_place, place_named, places_in};
ghost use Rattle.vz_surfaces.specs.Names.{AreNamed, AreNamedIfAny};

use std::alloc::Global;
use std::marker::Model;
use vz_base::Memory;
use vz_frame::{BoxedFrame, CompositorFrame, DrawQuad, List, Listing, Material, RenderPass};

/// In a frame with at most so many passes and so many resources, names are searched for.
const FEW: usize = 4;

/// A frame with its names resolved: `places` has where they lead, or nothing if each is searched
/// for. Contracts see the frame alone.
#[derive(Drop)]
pub struct NamedFrame {
    frame: BoxedFrame,
    places: List<List<Option<usize>>>,
}

impl Model for NamedFrame {
    ghost use Rattle.vz_frame.specs.declared.frame.CompositorFrame.{CompositorFrame};
    ghost use Rattle.vz_surfaces.specs.Names.{AreNamedIfAny};

    ghost Value = { CompositorFrame };

    ghost view = { λ f. f.frame };

    ghost invariant = { λ f. AreNamedIfAny f.frame f.places };
}

impl NamedFrame {
    /// Joins a frame and the places of its names. Condition: the places are right, if there are
    /// any.
    pub(crate) fn new(frame: BoxedFrame, places: List<List<Option<usize>>>) -> NamedFrame
        requires { AreNamedIfAny frame places }
        ensures { result ≡ frame }
    {
        NamedFrame { frame, places }
    }

    /// The frame.
    pub fn frame(&self) -> &CompositorFrame
        ensures { result.now ≡ self.now }
    {
        self.frame.as_frame()
    }

    /// The place to which the name in a quad leads; `pass` is the place of the quad's pass in the
    /// frame, `quad` its own in the pass, both from 0. For a pass quad it is the place of the
    /// last earlier pass with that id, for a tile quad that of the first listing of its resource.
    /// It is None if there is no such pass or listing. It needs no search of more than `FEW`.
    pub fn place_named(&self, pass: usize, quad: usize) -> Option<usize>
        ensures { (p : Pass) (q : Quad) → slice_get self.now.passes pass ≡ Some p
            → slice_get p.quads quad ≡ Some q → result ≡ place_named self.now pass q }
    {
        if self.places.as_slice().is_empty() {
            let found = search(self.frame.as_frame(), pass, quad);
            return found;
        }
        let places = self.places.as_slice().get(pass)?;
        let place = places.as_slice().get(quad)?;
        *place
    }
}

/// The place of the last pass with an id, among those before a place.
fn pass_place(passes: &[RenderPass], before: usize, id: u32) -> Option<usize>
    requires { before ≤ length passes.now }
    ensures { result ≡ pass_place id passes.now before }
{
    let mut k = before;
    while k > 0 {
        k -= 1;
        if passes[k].id == id {
            return Some(k);
        }
    }
    None
}

/// The place of the first listing of a resource.
fn listing_place(listings: &[Listing], id: u32) -> Option<usize>
    ensures { result ≡ listing_place id listings.now }
{
    listings.iter().position(|listing| listing.id == id)
}

/// The place to which the name in a quad leads. The quad is in the pass at a place.
#[tactic(auto, unfolding(crate::specs::Names::place_named))]
fn place_named(frame: &CompositorFrame, pass: usize, quad: &DrawQuad) -> Option<usize>
    requires { pass ≤ length frame.now.passes }
    ensures { result ≡ place_named frame.now pass quad.now }
{
    match quad.material {
        Material::Pass(id) => pass_place(frame.passes.as_slice(), pass, id),
        Material::Tile { resource, .. } => listing_place(frame.resources.as_slice(), resource),
        Material::Solid(_) => None,
        Material::Surface { .. } => None,
    }
}

/// The places to which the names of all quads lead, for the pass at a place.
fn places_in(
    alloc: Global,
    frame: &CompositorFrame,
    pass: usize,
    quads: &[DrawQuad],
) -> Result<List<Option<usize>>, Memory>
    requires { pass ≤ length frame.now.passes }
    ensures { IfOk result (λ places. places ≡ places_in frame.now pass quads.now) }
{
    let mut places = Vec::with_capacity(alloc, quads.len())?;
    for quad in quads {
        places.push(place_named(frame, pass, quad))?;
    }
    Ok(List::from_vec(places))
}

/// The place to which the name in a quad leads, by a search; `pass` is the place of the quad's pass
/// in the frame, `quad` its own in the pass.
fn search(frame: &CompositorFrame, pass: usize, quad: usize) -> Option<usize>
    ensures { (p : Pass) (q : Quad) → slice_get frame.now.passes pass ≡ Some p
        → slice_get p.quads quad ≡ Some q → result ≡ place_named frame.now pass q }
{
    let passes = frame.passes.as_slice();
    if pass >= passes.len() {
        return None;
    }
    let quads = passes[pass].quads.as_slice();
    if quad >= quads.len() {
        return None;
    }
    place_named(frame, pass, &quads[quad])
}

/// Whether a frame has so few passes and resources that each name is searched for.
fn has_few(frame: &CompositorFrame) -> bool {
    frame.passes.as_slice().len() <= FEW && frame.resources.as_slice().len() <= FEW
}

/// The places to which the names of all quads lead, for each pass of a frame. Of a frame with few
/// passes and resources it is empty.
pub(crate) fn places_of(
    alloc: Global,
    frame: &CompositorFrame,
) -> Result<List<List<Option<usize>>>, Memory>
    ensures { IfOk result (λ places. AreNamedIfAny frame.now places) }
{
    if has_few(frame) {
        return Ok(List::new(alloc));
    }
    let places = all_places(alloc, frame)?;
    Ok(places)
}

/// The places to which the names of all quads lead, for each pass of a frame.
fn all_places(alloc: Global, frame: &CompositorFrame) -> Result<List<List<Option<usize>>>, Memory>
    ensures { IfOk result (λ places. AreNamed frame.now places) }
{
    let passes = frame.passes.as_slice();
    let mut places = Vec::with_capacity(alloc, passes.len())?;
    for k in 0..passes.len() {
        let of_pass = places_in(alloc, frame, k, passes[k].quads.as_slice())?;
        places.push(of_pass)?;
    }
    Ok(List::from_vec(places))
}
