//! A reader of bytes from the front. Numbers have their low byte first.
ghost use Rattle.std.specs.Prelude.{◌≡◌, ◌<◌, ◌≤◌, length, drop, IfOk};
ghost use Rattle.std.specs.Int.{w8, w16, w32, w128};
ghost use Rattle.vz_frame.specs.Fits.{in_reach};
ghost use Rattle.vz_codec.specs.Giving.{Gives};
ghost use Rattle.vz_codec.specs.Reading.{front_at, number_at, ranged_at, signed_at, coordinate_at};

use crate::error::ReadError;
use crate::fault::FileRule;
use crate::limits::REACH;
use byteorder::{ByteOrder, LittleEndian};
use std::alloc::Global;
use std::marker::Model;

const SHORT: ReadError = ReadError::Wrong {
    left: 0,
    rule: FileRule::Short,
};

/// The bytes that are still to be read, and the allocator for the values that are read. After an
/// error it is not specified which bytes are left.
#[derive(Drop)]
pub struct Reader<'a> {
    alloc: Global,
    rest: &'a [u8],
}

impl<'a> Model for Reader<'a> {
    ghost use Rattle.std.specs.Prelude.{ℕ, List};

    ghost Value = { List ℕ };

    ghost view = { λ r. r.rest.now };
}

impl<'a> Reader<'a> {
    pub fn new(alloc: Global, bytes: &'a [u8]) -> Reader<'a>
        ensures { result ≡ bytes.entry.now }
    {
        Reader { alloc, rest: bytes }
    }

    pub fn alloc(&self) -> Global {
        self.alloc
    }

    /// Returns another reader of the same bytes.
    pub fn ahead(&self) -> Reader<'a>
        ensures { result ≡ self.now }
    {
        Reader {
            alloc: self.alloc,
            rest: self.rest,
        }
    }

    /// How many bytes are left.
    pub fn left(&self) -> usize
        ensures { result ≡ length self.now }
    {
        self.rest.len()
    }

    /// The bytes that are left.
    pub fn rest(&self) -> &'a [u8]
        ensures { result.now ≡ self.now }
    {
        self.rest
    }

    /// Skips `count` bytes. Condition: at least `count` bytes are left.
    pub fn skip(&mut self, count: usize)
        requires { count ≤ length self.old }
        ensures { self.new ≡ drop count self.old }
    {
        self.rest = &self.rest[count..];
    }

    /// Reads `count` bytes unchanged. The only error is `Short`.
    pub fn front(&mut self, count: usize) -> Result<&'a [u8], ReadError>
        ensures { Gives (λ front. (front.now, self.new)) result (front_at count self.old) }
    {
        if self.rest.len() < count {
            return Err(SHORT);
        }
        let (front, rest) = self.rest.split_at(count);
        self.rest = rest;
        Ok(front)
    }

    #[tactic(auto, unfolding(crate::specs::Reading::number_at))]
    pub fn u8(&mut self) -> Result<u8, ReadError>
        ensures { Gives (λ x. (x, self.new)) result (number_at w8 self.old) }
    {
        let front = self.front(1)?;
        Ok(front[0])
    }

    #[tactic(auto, unfolding(crate::specs::Reading::number_at))]
    pub fn u16(&mut self) -> Result<u16, ReadError>
        ensures { Gives (λ x. (x, self.new)) result (number_at w16 self.old) }
    {
        let front = self.front(2)?;
        Ok(LittleEndian::read_u16(front))
    }

    #[tactic(auto, unfolding(crate::specs::Reading::number_at))]
    pub fn u32(&mut self) -> Result<u32, ReadError>
        ensures { Gives (λ x. (x, self.new)) result (number_at w32 self.old) }
    {
        let front = self.front(4)?;
        Ok(LittleEndian::read_u32(front))
    }

    #[tactic(auto, unfolding(crate::specs::Reading::number_at))]
    pub fn u128(&mut self) -> Result<u128, ReadError>
        ensures { Gives (λ x. (x, self.new)) result (number_at w128 self.old) }
    {
        let front = self.front(16)?;
        Ok(LittleEndian::read_u128(front))
    }

    #[tactic(auto, unfolding(crate::specs::Reading::signed_at))]
    pub fn i32(&mut self) -> Result<i32, ReadError>
        ensures { Gives (λ x. (x, self.new)) result (signed_at self.old) }
    {
        Ok(self.u32()?.cast_signed())
    }

    /// Reads a number. The error is `Short`, or this rule if the number is below `low` or above
    /// `high`.
    #[tactic(auto, unfolding(crate::specs::Reading::ranged_at))]
    pub fn u8_within(&mut self, rule: FileRule, low: u8, high: u8) -> Result<u8, ReadError>
        ensures { Gives (λ x. (x, self.new)) result (ranged_at rule w8 low high self.old) }
    {
        let left = self.left();
        let number = self.u8()?;
        if number < low || number > high {
            return Err(ReadError::refused(left, rule));
        }
        Ok(number)
    }

    /// Reads a number. The error is `Short`, or this rule if the number is below `low` or above
    /// `high`.
    #[tactic(auto, unfolding(crate::specs::Reading::ranged_at))]
    pub fn u16_within(&mut self, rule: FileRule, low: u16, high: u16) -> Result<u16, ReadError>
        ensures given { Gives (λ x. (x, self.new)) result (ranged_at rule w16 low high self.old) }
        ensures range { IfOk result (λ x. (low ≤ x) × (x ≤ high)) }
    {
        let left = self.left();
        let number = self.u16()?;
        if number < low || number > high {
            return Err(ReadError::refused(left, rule));
        }
        Ok(number)
    }

    /// Reads a number. The error is `Short`, or this rule if the number is below `low` or above
    /// `high`.
    #[tactic(auto, unfolding(crate::specs::Reading::ranged_at))]
    pub fn u32_within(&mut self, rule: FileRule, low: u32, high: u32) -> Result<u32, ReadError>
        ensures { Gives (λ x. (x, self.new)) result (ranged_at rule w32 low high self.old) }
    {
        let left = self.left();
        let number = self.u32()?;
        if number < low || number > high {
            return Err(ReadError::refused(left, rule));
        }
        Ok(number)
    }

    #[tactic(auto, unfolding(crate::specs::Reading::coordinate_at))]
    pub fn coordinate(&mut self) -> Result<i32, ReadError>
        ensures { Gives (λ x. (x, self.new)) result (coordinate_at self.old) }
    {
        let left = self.left();
        let number = self.i32()?;
        if !in_reach(number) {
            return Err(ReadError::refused(left, FileRule::Limit));
        }
        Ok(number)
    }
}

/// Whether a number may be a coordinate of a frame.
pub fn in_reach(number: i32) -> bool
    ensures { result ≡ in_reach number }
{
    -REACH <= number && number <= REACH
}
