//! The limits of message files, as integers of the width that the format has for them.
use vz_base::limits;

/// The greatest distance of a coordinate from 0, and the greatest side of a rectangle, in pixels.
pub const REACH: i32 = limits::GREATEST_COORDINATE;

/// The greatest side of a block or a resource, in pixels.
pub const MOST_SIDE: u16 = limits::GREATEST_BLOCK_SIDE as u16;

pub const MOST_DEPENDENCIES: u8 = limits::MOST_DEPENDENCIES as u8;

pub const MOST_REFERENCES: u8 = limits::MOST_REFERENCES as u8;

pub const MOST_RESOURCES: u8 = limits::MOST_RESOURCES as u8;

pub const MOST_PASSES: u8 = limits::MOST_PASSES as u8;

/// The greatest number of quads in a frame, counted over all its passes.
pub const MOST_QUADS: u16 = limits::MOST_QUADS as u16;

/// The greatest deadline of a frame, in begin-frames.
pub const GREATEST_DEADLINE: u8 = limits::GREATEST_DEADLINE;

pub const MOST_MESSAGES: u32 = limits::MOST_MESSAGES as u32;

pub const NEWEST_FORMAT: u8 = 2;
