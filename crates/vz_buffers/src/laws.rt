//! Laws of buffers that are used in turn. Each is the contract of an empty function; a caller
//! that calls it may use its clauses.
ghost use Rattle.std.specs.Prelude.{◌≡◌, ℕ, ◌≤◌, ◌%◌, List, ◌∷◌, length};
ghost use Rattle.vz_geom.specs.declared.Size.{Size};
ghost use Rattle.vz_geom.specs.Rectangle.{Rectangle};
ghost use Rattle.vz_buffers.specs.Turns.{stale_of, damaged, turns_after, stale_with};

/// Suppose that each drawing adds its damage and then paints the next buffer. Then the stale
/// rectangle of that buffer is the whole display at its first use, and later the smallest
/// rectangle around the damages since its last use; and the buffers come one after the other, in
/// a circle.
pub fn damages_accumulate()
    ensures stale { (size : Size) (count : ℕ) (r : Rectangle) (before : List Rectangle) → 1 ≤ count
        → stale_of (damaged (turns_after size count before) r)
        ≡ stale_with size count (r ∷ before) }
    ensures next { (size : Size) (count : ℕ) (damages : List Rectangle) → 1 ≤ count
        → (turns_after size count damages).next ≡ length damages % count }
{}
