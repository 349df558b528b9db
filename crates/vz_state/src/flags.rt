//! Changes in place, by flags that were computed before anything changes.
ghost use Rattle.std.specs.Prelude.{◌≡◌, ◌&&◌, length, map, if◌then◌else◌, true, Bool};
ghost use Rattle.vz_rules.specs.World.{is_active, Submission as SubmissionState, Surface as Created};
ghost use Rattle.vz_rules.specs.declared.entry.State.TheVariants.{Active as Acts, Past as Passed};

use crate::submission::Submission;
use crate::surface::Surface;
use vz_rules::State;

impl<'a> Submission<'a> {
    /// Makes the submission active if `becomes`. If it was active and `replaced`, it is not
    /// active any more.
    fn go_on(&mut self, becomes: bool, replaced: bool)
        ensures { self.new ≡ (if becomes then record self.old { state = Acts; was_active = true }
            else (if is_active self.old && replaced then record self.old { state = Passed }
            else self.old)) }
    {
        if becomes {
            self.state = State::Active;
            self.was_active = true;
        } else if self.is_active() && replaced {
            self.state = State::Past;
        }
    }
}

impl Surface {
    /// Marks the surface if the flag is true.
    fn mark(&mut self, flag: bool)
        ensures { self.new ≡ (if flag then record self.old { marked = true } else self.old) }
    {
        if flag {
            self.marked = true;
        }
    }

    /// Notes the surface as named if the flag is true.
    fn name(&mut self, flag: bool)
        ensures { self.new ≡ (if flag then record self.old { named = true } else self.old) }
    {
        if flag {
            self.named = true;
        }
    }
}

/// Applies the two flags of each submission, by place: `becomes` makes it active, and `replaced`
/// ends it if it was active.
pub fn go_on_by(submissions: &mut [Submission<'_>], becomes: &[bool], replaced: &[bool])
    requires one { length becomes.now ≡ length submissions.old }
    requires other { length replaced.now ≡ length submissions.old }
    ensures { (p q : SubmissionState → Bool)
        → becomes.now ≡ map p submissions.old → replaced.now ≡ map q submissions.old
        → submissions.new ≡ map (λ s. if p s then record s { state = Acts; was_active = true }
        else (if is_active s && q s then record s { state = Passed } else s)) submissions.old }
{
    for k in 0..submissions.len() {
        submissions[k].go_on(becomes[k], replaced[k]);
    }
}

/// Marks each surface whose flag is true. Condition: there is a flag for each surface.
pub fn mark_by(surfaces: &mut [Surface], flags: &[bool])
    requires { length flags.now ≡ length surfaces.old }
    ensures { (p : Created → Bool) → flags.now ≡ map p surfaces.old
        → surfaces.new ≡ map (λ c. if p c then record c { marked = true } else c) surfaces.old }
{
    for k in 0..surfaces.len() {
        surfaces[k].mark(flags[k]);
    }
}

/// Notes each surface whose flag is true as named. Condition: there is a flag for each surface.
pub fn name_by(surfaces: &mut [Surface], flags: &[bool])
    requires { length flags.now ≡ length surfaces.old }
    ensures { (p : Created → Bool) → flags.now ≡ map p surfaces.old
        → surfaces.new ≡ map (λ c. if p c then record c { named = true } else c) surfaces.old }
{
    for k in 0..surfaces.len() {
        surfaces[k].name(flags[k]);
    }
}
