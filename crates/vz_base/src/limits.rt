//! The limits of the compositor: how large a file, a frame, a run and a display may be.
//!
//! Each limit is written here once. Code, clauses and definitions refer to it by its name.

/// The greatest number of client files in a plan. The least is 1.
pub const MOST_FILES: usize = 16;

/// The greatest number of messages in a client file. A file may have none.
pub const MOST_MESSAGES: usize = 4_096;

/// The greatest number of render passes in a frame.
pub const MOST_PASSES: usize = 16;

/// The greatest number of quads in a frame, counted over all its passes.
pub const MOST_QUADS: usize = 1_024;

/// The greatest number of resources that a frame lists.
pub const MOST_RESOURCES: usize = 64;

/// The greatest number of surfaces that a frame waits for.
pub const MOST_DEPENDENCIES: usize = 16;

/// The greatest number of surface ranges that a frame references.
pub const MOST_REFERENCES: usize = 64;

/// The greatest side of a block of pixels, in pixels. The least is 1.
pub const GREATEST_BLOCK_SIDE: u32 = 256;

/// The greatest side of a rectangle of a frame, in pixels.
pub const GREATEST_SIDE: i32 = 16_384;

/// The greatest distance of a coordinate of a frame from 0, in either direction, in pixels.
pub const GREATEST_COORDINATE: i32 = 16_384;

/// The greatest distance of an edge of any rectangle from 0, in either direction, in pixels.
pub const GREATEST_EDGE: i32 = 536_870_912;

/// The greatest deadline that a frame may name, in begin-frames after the frame is accepted.
pub const GREATEST_DEADLINE: u8 = 64;

/// The deadline of a frame that names none, in begin-frames after the frame is accepted. Chromium
/// has the same default.
pub const DEFAULT_DEADLINE: u8 = 4;

/// The greatest side of a display, in pixels. The least is 1.
pub const GREATEST_DISPLAY_SIDE: u32 = 2_048;

/// The greatest number of buffers of a display. The least is 1.
pub const MOST_BUFFERS: usize = 4;

/// The number of buffers of a display if the command line gives none.
pub const DEFAULT_BUFFERS: usize = 2;

/// The greatest number of bytes of all frames of a run together, at four bytes a pixel.
pub const MOST_DRAWN_BYTES: u64 = 1_073_741_824;

/// The greatest number of begin-frames that a run makes.
pub const MOST_TICKS: u32 = 256;

/// The greatest number of events in a schedule. Each event is one byte.
pub const MOST_EVENTS: usize = 65_536;

/// The greatest size of a client file in bytes.
pub const MOST_FILE_BYTES: usize = 16_777_216;

/// The greatest size of a log in bytes.
pub const MOST_LOG_BYTES: usize = 268_435_456;

/// The greatest number of rounds of the generated client files. The least is 1.
pub const MOST_ROUNDS: u32 = 1_000;

/// The greatest number of quads that one drawing may meet. A quad that is met twice counts twice.
/// With more, the drawing is refused as too much.
pub const MOST_WEIGHT: u32 = 65_536;

/// The greatest number of surfaces on a path from the root of a drawing. With a longer path, the
/// drawing is refused as too much.
pub const MOST_ON_PATH: usize = 64;

/// How many begin-frames a surface is kept alive by its temporary reference, if no active frame
/// references it before that.
pub const TEMPORARY_TICKS: u32 = 16;

/// The last number of a begin-frame. Later begin-frames repeat it, so that each deadline counted
/// from it still fits 32 bits.
pub const LAST_TICK: u32 = 4_294_967_231;

/// The greatest number in a message file or a log.
pub const GREATEST_NUMBER: u32 = 4_294_967_295;

/// The newest format of a message file. The oldest is 1.
pub const NEWEST_FORMAT: u8 = 2;

/// The greatest length of a file's name in bytes. The least is 1.
pub const MOST_NAME_BYTES: usize = 255;
