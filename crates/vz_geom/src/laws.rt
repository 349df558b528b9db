//! Laws of rectangles. Each is the contract of an empty function; a caller that calls it may use
//! its clauses.
ghost use Rattle.std.specs.Prelude.{◌≡◌, ◌&&◌, ◌↔◌, IsTrue, List, length, map, if◌then◌else◌};
ghost use Rattle.std.specs.List.{All};
ghost use Rattle.vz_geom.specs.declared.Point.{Point};
ghost use Rattle.vz_geom.specs.Rectangle.{Rectangle, IsRectangle, has, plus, meet, join, bound, moved, Covers, covers_rect};
ghost use Rattle.vz_geom.specs.Rectangle.{area_of, points_in, times_in};

/// The intersection does not depend on order or grouping, has exactly the points that both
/// rectangles have, and grows if they grow.
pub fn intersections()
    ensures commutative { (a b : Rectangle) → meet a b ≡ meet b a }
    ensures associative { (a b c : Rectangle) → meet (meet a b) c ≡ meet a (meet b c) }
    ensures monotone { (a a' b b' : Rectangle) → Covers a' a → Covers b' b
        → Covers (meet a' b') (meet a b) }
    ensures points { (a b : Rectangle) (p : Point) → has (meet a b) p ≡ (has a p && has b p) }
    ensures proper { (a b : Rectangle) → IsRectangle a → IsRectangle b → IsRectangle (meet a b) }
{}

/// The bound of a list covers each of its rectangles. Each rectangle that covers all of them also
/// covers the bound.
pub fn bounds()
    ensures covers { (rs : List Rectangle) → All (Covers (bound rs)) rs }
    ensures least { (rs : List Rectangle) (s : Rectangle) → All (Covers s) rs
        → Covers s (bound rs) }
    ensures proper { (rs : List Rectangle) → All IsRectangle rs → IsRectangle (bound rs) }
{}

/// A translated rectangle has exactly the translated points. Translation can be done before or
/// after an intersection or a bound.
pub fn translations()
    ensures points { (r : Rectangle) (by p : Point) → has (moved r by) (plus p by) ≡ has r p }
    ensures intersection { (a b : Rectangle) (by : Point)
        → moved (meet a b) by ≡ meet (moved a by) (moved b by) }
    ensures join { (a b : Rectangle) (by : Point)
        → moved (join a b) by ≡ join (moved a by) (moved b by) }
    ensures bound { (rs : List Rectangle) (by : Point)
        → moved (bound rs) by ≡ bound (map (λ r. moved r by) rs) }
{}

/// The area is the number of points. The list of points, row by row, has that length, has each
/// point of the rectangle once, and no other.
pub fn areas()
    ensures count { (r : Rectangle) → length (points_in r) ≡ area_of r }
    ensures once { (r : Rectangle) (p : Point) → IsRectangle r
        → times_in (points_in r) p ≡ (if has r p then 1 else 0) }
{}

/// The test that compares edges decides exactly which rectangles cover which.
pub fn coverings()
    ensures { (outer inner : Rectangle) → IsTrue (covers_rect outer inner) ↔ Covers outer inner }
{}
