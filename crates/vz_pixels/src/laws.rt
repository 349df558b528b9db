//! Laws of colours. Each is the contract of an empty function; a caller that calls it may use its
//! clauses.
ghost use Rattle.std.specs.Prelude.{◌≡◌, ◌≤◌, ℕ};
ghost use Rattle.vz_pixels.specs.Colour.{Colour, IsPremultiplied, mul, scale, over, transparent};

/// The results of operations on premultiplied colours are premultiplied, and fit 8 bits.
pub fn results_are_premultiplied()
    ensures over { (s d : Colour) → s.a ≤ 255 → IsPremultiplied s → IsPremultiplied d
        → IsPremultiplied (over s d) }
    ensures over_alpha { (s d : Colour) → s.a ≤ 255 → d.a ≤ 255 → (over s d).a ≤ 255 }
    ensures scale { (c : Colour) (o : ℕ) → IsPremultiplied c → IsPremultiplied (scale c o) }
    ensures scale_alpha { (c : Colour) (o : ℕ) → o ≤ 255 → (scale c o).a ≤ c.a }
{}

/// An opaque colour hides what is below it, a transparent colour changes nothing, and a colour
/// laid over transparent stays as it is.
pub fn opaque_and_transparent()
    ensures opaque { (s d : Colour) → s.a ≡ 255 → over s d ≡ s }
    ensures transparent { (d : Colour) → over transparent d ≡ d }
    ensures on_nothing { (s : Colour) → over s transparent ≡ s }
{}

/// Opacity 255 changes nothing, and opacity 0 gives transparent.
pub fn full_and_no_opacity()
    ensures full { (c : Colour) → scale c 255 ≡ c }
    ensures none { (c : Colour) → scale c 0 ≡ transparent }
{}
