//! Frames that were submitted and accepted.
ghost use Rattle.std.specs.Prelude.{◌≡◌, map, IfOk};
ghost use Rattle.vz_placement.specs.Limits.{FitsFile};

use std::alloc::{AllocError, Global};
use std::marker::Model;
use std::sync::Arc;
use vz_frame::CompositorFrame;
use vz_ids::{Sub, SurfaceId};
use vz_pixels::PixelBlock;

/// An accepted frame with what came with it. The frame and the pixel blocks stay in the plan, and
/// the list of blocks is shared by reference count. The frame fits a message file.
#[derive(Drop)]
pub struct SubmittedFrame<'a> {
    pub(crate) id: SurfaceId,
    pub(crate) sub: Sub,
    pub(crate) index: u32,
    pub(crate) frame: &'a CompositorFrame,
    blocks: Arc<Vec<&'a PixelBlock>, Global>,
}

impl<'a> Model for SubmittedFrame<'a> {
    ghost use Rattle.std.specs.Prelude.{map};
    ghost use Rattle.std.specs.Arc.{arc_value};
    ghost use Rattle.vz_rules.specs.World.{FrameData};
    ghost use Rattle.vz_placement.specs.Limits.{FitsFile};

    ghost Value = { FrameData };

    ghost view = { λ r. record {
      id = r.id;
      sub = r.sub;
      index = r.index;
      frame = r.frame.now;
      blocks = map (λ b. b.now) (arc_value r.blocks).items;
    } };

    ghost invariant = { λ r. FitsFile r.frame.now };
}

impl<'a> SubmittedFrame<'a> {
    /// Joins a frame with its surface, its client and ordinal, its number among the frames of the
    /// surface, and the pixel block of each listed resource, in the order of the listings.
    /// Condition: the frame fits a message file.
    pub fn new(
        alloc: Global,
        id: SurfaceId,
        sub: Sub,
        index: u32,
        frame: &'a CompositorFrame,
        blocks: Vec<&'a PixelBlock>,
    ) -> Result<SubmittedFrame<'a>, AllocError>
        requires { FitsFile frame.now }
        ensures { IfOk result (λ s. s ≡ record {
          id = id;
          sub = sub;
          index = index;
          frame = frame.now;
          blocks = map (λ b. b.now) blocks.entry.items;
        }) }
    {
        match Arc::new(alloc, blocks) {
            Ok(blocks) => Ok(SubmittedFrame {
                id,
                sub,
                index,
                frame,
                blocks,
            }),
            Err(_) => Err(AllocError),
        }
    }

    /// The surface that it is on.
    pub fn id(&self) -> SurfaceId
        ensures { result ≡ self.now.id }
    {
        self.id
    }

    /// Its client and ordinal.
    pub fn sub(&self) -> Sub
        ensures { result ≡ self.now.sub }
    {
        self.sub
    }

    /// Its number among the frames of its surface, from 1.
    pub fn index(&self) -> u32
        ensures { result ≡ self.now.index }
    {
        self.index
    }

    /// Its frame.
    pub fn frame(&self) -> &'a CompositorFrame
        ensures value { result.now ≡ self.now.frame }
        ensures fits { FitsFile result.now }
    {
        self.frame
    }

    /// The pixel block of each listed resource of the frame, in the order of the listings.
    pub fn blocks(&self) -> &[&'a PixelBlock]
        ensures { map (λ b. b.now) result.now ≡ self.now.blocks }
    {
        self.blocks.as_slice()
    }

    /// Makes a second reference to the same frame. No list is copied.
    pub fn share(&self) -> Result<SubmittedFrame<'a>, AllocError>
        ensures { IfOk result (λ s. s ≡ self.now) }
    {
        let blocks = Arc::try_clone(&self.blocks)?;
        Ok(SubmittedFrame {
            id: self.id,
            sub: self.sub,
            index: self.index,
            frame: self.frame,
            blocks,
        })
    }
}
