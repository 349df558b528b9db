//! A writer of fields one after the other. Numbers have their low byte first.
ghost use Rattle.std.specs.Prelude.{◌≡◌, [], ◌++◌, OnOk};
ghost use Rattle.vz_codec.specs.Spelling.{u8_bytes, u16_bytes, u32_bytes, u128_bytes, i32_bytes};

use byteorder::{ByteOrder, LittleEndian};
use std::alloc::{AllocError, Global};
use std::marker::Model;

/// The bytes that were written. After an error it is not specified how much of the last field was
/// written.
#[derive(Drop)]
pub struct Writer {
    bytes: Vec<u8>,
}

impl Model for Writer {
    ghost use Rattle.std.specs.Prelude.{ℕ, List};

    ghost Value = { List ℕ };

    ghost view = { λ w. w.bytes.items };
}

#[tactic(auto, unfolding(crate::specs::Spelling::u16_bytes, crate::specs::Spelling::u32_bytes, crate::specs::Spelling::u128_bytes, crate::specs::Spelling::i32_bytes))]
impl Writer {
    pub fn new(alloc: Global) -> Writer
        ensures { result ≡ [] }
    {
        Writer {
            bytes: Vec::new(alloc),
        }
    }

    /// Returns the bytes that were written.
    pub fn into_bytes(self) -> Vec<u8>
        ensures { result.items ≡ self }
    {
        self.bytes
    }

    /// Writes bytes unchanged.
    pub fn all(&mut self, bytes: &[u8]) -> Result<(), AllocError>
        ensures { OnOk result (self.new ≡ self.old ++ bytes.now) }
    {
        self.bytes.extend_from_slice(bytes)
    }

    pub fn u8(&mut self, n: u8) -> Result<(), AllocError>
        ensures { OnOk result (self.new ≡ self.old ++ u8_bytes n) }
    {
        self.all(&[n])
    }

    /// Writes a count as one byte: its low 8 bits.
    pub fn u8_count(&mut self, n: usize) -> Result<(), AllocError>
        ensures { OnOk result (self.new ≡ self.old ++ u8_bytes n) }
    {
        let mut bytes = [0; 8];
        LittleEndian::write_u64(&mut bytes, n as u64);
        self.all(&bytes[..1])
    }

    /// Writes a count as two bytes: its low 16 bits.
    pub fn u16_count(&mut self, n: usize) -> Result<(), AllocError>
        ensures { OnOk result (self.new ≡ self.old ++ u16_bytes n) }
    {
        let mut bytes = [0; 8];
        LittleEndian::write_u64(&mut bytes, n as u64);
        self.all(&bytes[..2])
    }

    /// Writes a count as four bytes: its low 32 bits.
    pub fn u32_count(&mut self, n: usize) -> Result<(), AllocError>
        ensures { OnOk result (self.new ≡ self.old ++ u32_bytes n) }
    {
        let mut bytes = [0; 8];
        LittleEndian::write_u64(&mut bytes, n as u64);
        self.all(&bytes[..4])
    }

    pub fn u16(&mut self, n: u16) -> Result<(), AllocError>
        ensures { OnOk result (self.new ≡ self.old ++ u16_bytes n) }
    {
        let mut bytes = [0; 2];
        LittleEndian::write_u16(&mut bytes, n);
        self.all(&bytes)
    }

    pub fn u32(&mut self, n: u32) -> Result<(), AllocError>
        ensures { OnOk result (self.new ≡ self.old ++ u32_bytes n) }
    {
        let mut bytes = [0; 4];
        LittleEndian::write_u32(&mut bytes, n);
        self.all(&bytes)
    }

    pub fn u128(&mut self, n: u128) -> Result<(), AllocError>
        ensures { OnOk result (self.new ≡ self.old ++ u128_bytes n) }
    {
        let mut bytes = [0; 16];
        LittleEndian::write_u128(&mut bytes, n);
        self.all(&bytes)
    }

    pub fn i32(&mut self, z: i32) -> Result<(), AllocError>
        ensures { OnOk result (self.new ≡ self.old ++ i32_bytes z) }
    {
        self.u32(z.cast_unsigned())
    }
}
