//! Laws of occlusion. Each is the contract of an empty function; a caller that calls it may use
//! its clauses.
ghost use Rattle.std.specs.Prelude.{◌≡◌, ◌≤◌, ◌↔◌, ◌∷◌, ℕ, ℤ, List, [], take, Any, IsTrue, false};
ghost use Rattle.vz_geom.specs.declared.Point.{Point};
ghost use Rattle.vz_geom.specs.Rectangle.{Rectangle, IsRectangle, has, Covers};
ghost use Rattle.vz_pixels.specs.Colour.{Colour, transparent};
ghost use Rattle.vz_pixels.specs.Block.{Block};
ghost use Rattle.vz_frame.specs.declared.blend.Blend.{Blend};
ghost use Rattle.vz_frame.specs.Blending.{laid};
ghost use Rattle.vz_frame.specs.declared.blend.Blend.TheVariants.{Over};
ghost use Rattle.vz_flat.specs.declared.op.Op.{Op};
ghost use Rattle.vz_flat.specs.declared.op.Op.TheVariants.{Push};
ghost use Rattle.vz_flat.specs.Ops.{value, is_whole, deepest};
ghost use Rattle.vz_occlude.specs.Items.{Items, items_of, ops_of};
ghost use Rattle.vz_occlude.specs.Occluders.{is_opaque, laid_texel, is_opaque_blit, is_occluder, occluders_of};
ghost use Rattle.vz_occlude.specs.declared.bound.TheConstants.{MOST_OCCLUDERS};
ghost use Rattle.vz_occlude.specs.Occlusion.{is_occluded, kept, gone};
ghost use Rattle.vz_occlude.specs.Worked.{rect, red, filled, green_behind, group_behind, behind_group, behind_texel};

/// What is kept of whole operations has at every point and on every colour their value, is whole,
/// and has no more groups open at once.
pub fn kept_is_the_same()
    ensures same { (ops : List Op) (p : Point) (d : Colour) → IsTrue (is_whole ops)
        → value (kept ops) p d ≡ value ops p d }
    ensures whole { (ops : List Op) → IsTrue (is_whole ops) → IsTrue (is_whole (kept ops)) }
    ensures deep { (ops : List Op) → IsTrue (is_whole ops)
        → deepest 0 (kept ops) ≤ deepest 0 ops }
{}

/// An item is occluded exactly if one of the last 64 occluders that come after it in its list has
/// every point of its area. A `Blit` is opaque exactly if each texel that it draws is, and an
/// occluder draws the same on every colour.
pub fn occluded_is_covered()
    ensures occluded { (area : Rectangle) (later : Items) → IsTrue (is_occluded area later)
        ↔ Any (λ cover. Covers cover area) (take MOST_OCCLUDERS (occluders_of later)) }
    ensures limit { MOST_OCCLUDERS ≡ 64 }
    ensures texels { (area : Rectangle) (block : Block) (tx ty : ℤ) → IsRectangle area
        → IsTrue (is_opaque_blit area block tx ty) ↔ ((p : Point) → IsTrue (has area p)
        → (laid_texel area block tx ty p).a ≡ 255) }
    ensures occluder { (mode : Blend) (opacity : ℕ) (c d e : Colour)
        → IsTrue (is_occluder mode opacity (is_opaque c))
        → laid mode c opacity d ≡ laid mode c opacity e }
{}

/// A list that is whole has the operations of its items, and the items of the operations that
/// items make are these items.
pub fn items_are_the_list()
    ensures list { (ops : List Op) → IsTrue (is_whole ops) → ops_of (items_of ops) ≡ ops }
    ensures again { (items : Items) → items_of (ops_of items) ≡ items }
{}

/// Worked lists: what is kept of each, and how many items are removed.
pub fn worked_lists()
    ensures front_is_all { (kept (green_behind (rect 0 0 4 2)) ≡ filled red (rect 0 0 4 2) ∷ [])
        × (gone (green_behind (rect 0 0 4 2)) ≡ 1) }
    ensures front_is_a_part { (kept (green_behind (rect 1 0 2 2)) ≡ green_behind (rect 1 0 2 2))
        × (gone (green_behind (rect 1 0 2 2)) ≡ 0) }
    ensures back_is_a_group { (kept group_behind ≡ filled red (rect 0 0 4 2) ∷ [])
        × (gone group_behind ≡ 1) }
    ensures front_is_a_group { (kept behind_group ≡ behind_group) × (gone behind_group ≡ 0) }
    ensures not_whole { is_whole (Push (rect 0 0 4 2) 255 Over ∷ []) ≡ false }
    ensures nothing { (kept [] ≡ []) × (gone [] ≡ 0) }
    ensures front_is_opaque { gone (behind_texel red) ≡ 1 }
    ensures front_is_clear { gone (behind_texel transparent) ≡ 0 }
{}
