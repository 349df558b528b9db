//! A buffer that is read by several at once.
ghost use Rattle.std.specs.Prelude.{◌≡◌, IfOk};
ghost use Rattle.std.specs.Arc.{arc_value};
ghost use Rattle.std.specs.List.{flat_map};
ghost use Rattle.vz_buffers.specs.Canvas.{IsCanvas};
ghost use Rattle.vz_pixels.specs.Colour.{colour_bytes};

use crate::Buffer;
use std::alloc::Global;
use std::marker::Model;
use std::sync::Arc;
use vz_base::Memory;
use vz_geom::Size;

/// A buffer that may be read and not painted, because somebody else may read it, too: the display
/// shows it while another thread writes its bytes to a file. Nothing is copied for the second one.
#[derive(Drop)]
pub struct SharedBuffer {
    buffer: Arc<Buffer>,
}

impl Model for SharedBuffer {
    ghost use Rattle.std.specs.Arc.{arc_value};
    ghost use Rattle.vz_buffers.specs.Canvas.{Canvas, IsCanvas};

    ghost Value = { Canvas };

    ghost view = { λ s. arc_value s.buffer };

    ghost invariant = { λ s. IsCanvas (arc_value s.buffer) };
}

impl SharedBuffer {
    /// Lets others read a buffer. The only error is `Memory`.
    pub fn new(alloc: Global, buffer: Buffer) -> Result<SharedBuffer, Memory>
        ensures { IfOk result (λ s. s ≡ buffer) }
    {
        let _size = buffer.size();
        let Ok(buffer) = Arc::new(alloc, buffer) else {
            return Err(Memory);
        };
        Ok(SharedBuffer { buffer })
    }

    /// The width and the height in pixels.
    pub fn size(&self) -> Size
        ensures value { result ≡ self.now.size }
        ensures proper { IsCanvas self.now }
    {
        self.buffer.size()
    }

    /// The same buffer for somebody else. No pixel is copied. The only error is `Memory`: a
    /// buffer can have only so many readers at once (`isize::MAX`).
    pub fn share(&self) -> Result<SharedBuffer, Memory>
        ensures { IfOk result (λ s. s ≡ self.now) }
    {
        Ok(SharedBuffer {
            buffer: Arc::try_clone(&self.buffer)?,
        })
    }

    /// The bytes of all pixels, row by row from the top, four bytes a pixel: red, green, blue and
    /// alpha. Nothing is copied.
    pub fn bytes(&self) -> &[u8]
        ensures { result.now ≡ flat_map colour_bytes self.now.pixels }
    {
        self.buffer.bytes()
    }

    /// The buffer, to be painted again. If nobody else reads it any more, nothing is copied;
    /// otherwise they keep theirs, and this is a copy. The only error is `Memory`.
    pub fn into_buffer(self, alloc: Global) -> Result<Buffer, Memory>
        ensures { IfOk result (λ b. b ≡ self) }
    {
        match Arc::try_unwrap(self.buffer) {
            Ok(buffer) => Ok(buffer),
            Err(shared) => shared.copy(alloc),
        }
    }
}
