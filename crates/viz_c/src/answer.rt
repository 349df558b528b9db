//! The numbers that C is told, and why an input is refused.
ghost use Rattle.std.specs.Prelude.{◌≡◌, ◌≢◌};
ghost use Rattle.viz_c.specs.Answers as viz;
ghost use Rattle.viz_c.specs.Numbers.{rule_number, reason_number, IsErrorTold};

use viz_run::{InputError, Reason};
use vz_codec::FileRule;

/// All that the call asks for was done. 1 to 7 are the rules of a message file.
pub const DONE: u32 = 0;

/// An allocation failed.
pub const MEMORY: u32 = 8;

/// A number is out of its range, or the lengths of the files do not fill their bytes.
pub const CALL: u32 = 9;

/// A room is too small.
pub const ROOM: u32 = 10;

/// An input is refused.
pub const REFUSED: u32 = 11;

/// A log or its frames have a fault.
pub const FAULT: u32 = 12;

/// Nothing is hit.
pub const NOTHING: u32 = 13;

/// Where and why an input is refused.
#[repr(C)]
#[derive(Clone, Copy)]
pub struct Cause {
    /// The number of the client whose file it is, from 1 on, or 0 for the schedule or the log.
    pub file: u32,
    /// What is wrong there: 1 to 7 for a rule of a message file or of a schedule, 14 if an earlier
    /// file has the same sink, or 15 if the input is too long.
    pub reason: u32,
    /// How many bytes of the input come before the fault.
    pub at: usize,
}

/// The number of a rule of a message file.
pub fn rule_number(rule: FileRule) -> u32
    ensures { result ≡ rule_number rule }
{
    match rule {
        FileRule::Magic => 1,
        FileRule::Version => 2,
        FileRule::Short => 3,
        FileRule::Tag => 4,
        FileRule::Limit => 5,
        FileRule::Colour => 6,
        FileRule::Trailing => 7,
    }
}

/// The number of what is wrong with an input.
fn reason_number(reason: Reason) -> u32
    ensures { result ≡ reason_number reason }
{
    match reason {
        Reason::Rule(rule) => rule_number(rule),
        Reason::SinkTaken => 14,
        Reason::Long => 15,
    }
}

/// The answer if inputs are not accepted. If one is refused, `cause` gets where and why; else it
/// stays as it is.
pub fn tell_error(error: &InputError, cause: &mut Cause) -> u32
    ensures told { IsErrorTold error.now result cause.new }
    ensures cause_kept { result ≢ viz.REFUSED → cause.new ≡ cause.old }
{
    match error {
        InputError::Refused(refused) => {
            *cause = Cause {
                file: refused.file,
                reason: reason_number(refused.reason),
                at: refused.at,
            };
            REFUSED
        }
        InputError::Memory => MEMORY,
    }
}
