//! The commands that a command line can ask for.

/// The words of `run`, which runs each client on its own thread beside a display. Sides are in
/// pixels, and names are names of files.
#[derive(Clone, Copy)]
pub struct RunWords<'a> {
    /// Whether in each round the display waits, before it draws, until each client has answered
    /// the begin-frame or is idle.
    pub paced: bool,
    /// How many buffers the display has, or None if the words do not say.
    pub buffers: Option<u32>,
    /// Whether a thread of its own writes the frames.
    pub pipe: bool,
    /// The width of the display in pixels.
    pub width: u32,
    /// The height of the display in pixels.
    pub height: u32,
    /// How many begin-frames the display makes.
    pub ticks: u32,
    /// The file to which the frames are written.
    pub frames: &'a str,
    /// The file to which the log is written.
    pub log: &'a str,
    /// The client files. The first is that of client 1.
    pub files: &'a [String],
}

/// The words of `step`, which takes the events of a schedule one after the other.
#[derive(Clone, Copy)]
pub struct StepWords<'a> {
    /// The width of the display in pixels.
    pub width: u32,
    /// The height of the display in pixels.
    pub height: u32,
    /// The file of the schedule.
    pub schedule: &'a str,
    /// The file to which the frames are written.
    pub frames: &'a str,
    /// The file to which the log is written.
    pub log: &'a str,
    /// The client files. The first is that of client 1.
    pub files: &'a [String],
}

/// The words of `check`, which decides whether a log and its frames are those that the machine
/// makes.
#[derive(Clone, Copy)]
pub struct CheckWords<'a> {
    /// The width of the display in pixels.
    pub width: u32,
    /// The height of the display in pixels.
    pub height: u32,
    /// The file of the frames.
    pub frames: &'a str,
    /// The file of the log.
    pub log: &'a str,
    /// The client files. The first is that of client 1.
    pub files: &'a [String],
}

/// The words of `gen`, which generates three client files.
#[derive(Clone, Copy)]
pub struct MakeWords<'a> {
    /// How many rounds the files have.
    pub rounds: u32,
    /// The file to which client 1's messages are written.
    pub first: &'a str,
    /// The file to which client 2's messages are written.
    pub second: &'a str,
    /// The file to which client 3's messages are written.
    pub third: &'a str,
}

/// The words of `hit`, which asks for the surface at a point of the last frame of a schedule.
#[derive(Clone, Copy)]
pub struct HitWords<'a> {
    /// The width of the display in pixels.
    pub width: u32,
    /// The height of the display in pixels.
    pub height: u32,
    /// The file of the schedule.
    pub schedule: &'a str,
    /// The column of the point, from 0 on.
    pub x: u32,
    /// The row of the point, from 0 on.
    pub y: u32,
    /// The client files. The first is that of client 1.
    pub files: &'a [String],
}

/// The words of `turns`, in which clients and a display take turns, without pictures.
#[derive(Clone, Copy)]
pub struct TurnsWords<'a> {
    /// The width of the display in pixels.
    pub width: u32,
    /// The height of the display in pixels.
    pub height: u32,
    /// How many begin-frames the display makes.
    pub ticks: u32,
    /// The client files. The first is that of client 1.
    pub files: &'a [String],
}

/// What a command line asks for.
#[derive(Clone, Copy)]
pub enum Command<'a> {
    /// Run each client on its own thread, beside a display.
    Run(RunWords<'a>),
    /// Take the events of a schedule one after the other.
    Step(StepWords<'a>),
    /// Decide whether a log and its frames are those that the machine makes.
    Check(CheckWords<'a>),
    /// Generate three client files and write them.
    Gen(MakeWords<'a>),
    /// Generate three client files and run them without writing a file.
    Demo {
        /// How many rounds the files have.
        rounds: u32,
    },
    /// Find the surface at a point of the last frame of a schedule.
    Hit(HitWords<'a>),
    /// Let clients and a display take turns, without pictures.
    Turns(TurnsWords<'a>),
}
