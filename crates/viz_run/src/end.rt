//! How a command ended.
ghost use Rattle.std.specs.Prelude.{◌≡◌};
ghost use Rattle.viz_run.specs.Lines.{verdict_status};

use vz_check::Verdict;

/// The line that reports how a command ended, and its status: 0, or 1 if a log or its frames have
/// a fault.
#[derive(Drop)]
pub struct End {
    pub line: String,
    pub status: u8,
}

/// The status for a verdict: 0 for yes, 1 for no.
pub fn verdict_status(verdict: &Verdict) -> u8
    ensures { result ≡ verdict_status verdict.now }
{
    match verdict {
        Verdict::Yes => 0,
        Verdict::No { .. } => 1,
    }
}
