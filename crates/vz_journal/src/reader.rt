//! A reader of bytes from the front, by words and numbers.
ghost use Rattle.std.specs.Prelude.{◌≡◌, ◌≤◌, ℕ, Bool, length, drop, slice_index, if◌then◌else◌};
ghost use Rattle.vz_journal.specs.Giving.{Gives};
ghost use Rattle.vz_journal.specs.Reading.{begins, after, word_at, is_digit, digits_at, number_at};
ghost use Rattle.vz_journal.specs.Reading.{count_at, client_at, next_number_at, next_count_at};

use crate::stop::Stop;
use std::marker::Model;
use vz_base::limits::{GREATEST_NUMBER, MOST_FILES};

/// The greatest number in a log, in the type in which digits are added up.
const GREATEST: u64 = GREATEST_NUMBER as u64;

/// The bytes that are still to be read. After an error it is not specified which bytes are left.
#[derive(Drop)]
pub struct Reader<'a> {
    rest: &'a [u8],
}

impl<'a> Model for Reader<'a> {
    ghost use Rattle.std.specs.Prelude.{ℕ, List};

    ghost Value = { List ℕ };

    ghost view = { λ r. r.rest.now };
}

impl<'a> Reader<'a> {
    pub fn new(bytes: &'a [u8]) -> Reader<'a>
        ensures { result ≡ bytes.entry.now }
    {
        Reader { rest: bytes }
    }

    /// Returns another reader of the same bytes.
    pub fn ahead(&self) -> Reader<'a>
        ensures { result ≡ self.now }
    {
        Reader { rest: self.rest }
    }

    /// How many bytes are left.
    pub fn left(&self) -> usize
        ensures { result ≡ length self.now }
    {
        self.rest.len()
    }

    /// Whether the bytes begin with this word. If so, it is skipped.
    pub fn has(&mut self, word: &[u8]) -> bool
        ensures found { result ≡ begins word.now self.old }
        ensures rest { self.new
            ≡ (if begins word.now self.old then after word.now self.old else self.old) }
    {
        let found = self.rest.starts_with(word);
        if found {
            self.rest = &self.rest[word.len()..];
        }
        found
    }

    #[tactic(auto, unfolding(crate::specs::Reading::word_at))]
    pub fn word(&mut self, word: &[u8]) -> Result<(), Stop>
        ensures { Gives (λ _. (tt, self.new)) result (word_at word.now self.old) }
    {
        if !self.has(word) {
            return Err(Stop::Unlike);
        }
        Ok(())
    }

    /// The first byte, or 0 if none is left.
    fn first(&self) -> u8
        ensures { result ≡ slice_index self.now 0 }
    {
        match self.rest.first() {
            Some(&byte) => byte,
            None => 0,
        }
    }

    /// Reads a number in decimal digits, without a leading zero.
    #[tactic(auto, unfolding(crate::specs::Reading::number_at))]
    pub fn number(&mut self) -> Result<u32, Stop>
        ensures { Gives (λ x. (x, self.new)) result (number_at self.old) }
    {
        let first = self.first();
        if first == b'0' {
            self.rest = &self.rest[1..];
            return Ok(0);
        }
        if !is_digit(first) {
            return Err(Stop::Unlike);
        }
        self.rest = &self.rest[1..];
        self.digits(first - b'0')
    }

    /// Reads a number whose first digit was read already.
    fn digits(&mut self, first: u8) -> Result<u32, Stop>
        requires { first ≤ 9 }
        ensures { Gives (λ x. (x, self.new)) result (digits_at first self.old) }
    {
        let bytes = self.rest;
        let mut number = u64::from(first);
        'digits: for (place, &byte) in bytes.iter().enumerate() {
            if !is_digit(byte) {
                self.rest = &bytes[place..];
                return Ok(number as u32);
            }
            number = 10 * number + u64::from(byte - b'0');
            if number > GREATEST {
                return Err(Stop::Unlike);
            }
        }
        self.rest = &bytes[bytes.len()..];
        Ok(number as u32)
    }

    /// Reads a number other than 0.
    #[tactic(auto, unfolding(crate::specs::Reading::count_at))]
    pub fn count(&mut self) -> Result<u32, Stop>
        ensures { Gives (λ x. (x, self.new)) result (count_at self.old) }
    {
        let number = self.number()?;
        if number < 1 {
            return Err(Stop::Unlike);
        }
        Ok(number)
    }

    /// Reads the number of a client.
    #[tactic(auto, unfolding(crate::specs::Reading::client_at))]
    pub fn client(&mut self) -> Result<u32, Stop>
        ensures { Gives (λ x. (x, self.new)) result (client_at self.old) }
    {
        let number = self.number()?;
        if number < 1 || number as usize > MOST_FILES {
            return Err(Stop::Unlike);
        }
        Ok(number)
    }

    /// Reads a blank and a number.
    #[tactic(auto, unfolding(crate::specs::Reading::next_number_at))]
    pub fn next_number(&mut self) -> Result<u32, Stop>
        ensures { Gives (λ x. (x, self.new)) result (next_number_at self.old) }
    {
        self.word(b" ")?;
        self.number()
    }

    /// Reads a blank and a number other than 0.
    #[tactic(auto, unfolding(crate::specs::Reading::next_count_at))]
    pub fn next_count(&mut self) -> Result<u32, Stop>
        ensures { Gives (λ x. (x, self.new)) result (next_count_at self.old) }
    {
        self.word(b" ")?;
        self.count()
    }
}

fn is_digit(byte: u8) -> bool
    ensures { result ≡ is_digit byte }
{
    byte >= b'0' && byte <= b'9'
}
