//! Laws of a display. Each is the contract of an empty function; a caller that calls it may use
//! its clauses.
ghost use Rattle.std.specs.Prelude.{◌≡◌, ℕ, ◌+◌, ◌≤◌, Some, List, [], ◌∷◌, ◌++◌};
ghost use Rattle.vz_geom.specs.declared.Size.{Size};
ghost use Rattle.vz_geom.specs.Rectangle.{Rectangle};
ghost use Rattle.vz_pixels.specs.Colour.{Colour};
ghost use Rattle.vz_geom.specs.Display.{IsDisplaySize};
ghost use Rattle.vz_rules.specs.declared.entry.Entry.{Entry};
ghost use Rattle.vz_rules.specs.declared.entry.Reply.TheVariants.{Drawn};
ghost use Rattle.vz_rules.specs.Plan.{Plan};
ghost use Rattle.vz_rules.specs.Step.{world};
ghost use Rattle.vz_rules.specs.Scene.{scene_of};
ghost use Rattle.vz_rules.specs.World.{Scene};
ghost use Rattle.vz_rules.specs.Paint.{picture};
ghost use Rattle.vz_rules.specs.Frames.{DrawnFrame, drawn_frame_of, written, painted, written_of, painted_of};
ghost use Rattle.vz_machine.specs.Pictured.{Pictured, colours_in};
ghost use Rattle.vz_display.specs.Displayed.{first_displayed, display_after, shown, steps_for, current, buffer_with};
ghost use Rattle.vz_display.specs.Displayed.{display_at, IsNext};

/// If a display shows the pictures of drawings one after the other, its current buffer has the
/// newest written frame, and it takes one step for each point that is painted.
pub fn drawings_are_shown()
    ensures first { (size : Size) (count : ℕ)
        → display_after size count [] ≡ first_displayed size count }
    ensures more { (size : Size) (count : ℕ) (before : List DrawnFrame) (scene : Scene) (p : Pictured)
        → IsDisplaySize size → 1 ≤ count → p.size ≡ size → colours_in p ≡ picture size scene
        → shown (display_after size count before) p
        ≡ display_after size count (record { scene = Some scene; damage = p.changed } ∷ before) }
    ensures steps { (size : Size) (count : ℕ) (before : List DrawnFrame) (s : DrawnFrame)
        → 1 ≤ count
        → steps_for (display_after size count before) s.damage + painted_of size count before
        ≡ painted_of size count (s ∷ before) }
    ensures current { (size : Size) (count : ℕ) (drawn : List DrawnFrame) (frame : List Colour)
        (earlier : List (List Colour)) → 1 ≤ count → written_of size count drawn ≡ frame ∷ earlier
        → current (display_after size count drawn) ≡ buffer_with size frame }
{}

/// If a display shows the picture of each drawing of a history, its current buffer has the newest
/// frame that the history writes, and it takes as many steps as the history paints. An entry that
/// draws nothing changes neither.
pub fn histories_are_shown()
    ensures drawn { (p : Plan) (h : List Entry) (e : Entry) (count : ℕ) (r : Rectangle)
        (scene : Scene) (pictured : Pictured) → IsDisplaySize p.size → 1 ≤ count
        → e.reply ≡ Drawn r → scene_of (world p h) ≡ Some scene → pictured.size ≡ p.size
        → colours_in pictured ≡ picture p.size scene → pictured.changed ≡ r
        → shown (display_at p h count) pictured ≡ display_at p (h ++ e ∷ []) count }
    ensures written { (p : Plan) (h : List Entry) (e : Entry) (count : ℕ) (r : Rectangle)
        → 1 ≤ count → e.reply ≡ Drawn r → IsNext p h e count }
    ensures steps { (p : Plan) (h : List Entry) (e : Entry) (count : ℕ) (r : Rectangle)
        → 1 ≤ count → e.reply ≡ Drawn r
        → steps_for (display_at p h count) r + painted p h count ≡ painted p (h ++ e ∷ []) count }
    ensures other { (p : Plan) (h : List Entry) (e : Entry) (count : ℕ)
        → drawn_frame_of (scene_of (world p h)) e.reply ≡ []
        → (display_at p (h ++ e ∷ []) count ≡ display_at p h count)
        × (written p (h ++ e ∷ []) count ≡ written p h count)
        × (painted p (h ++ e ∷ []) count ≡ painted p h count) }
{}
