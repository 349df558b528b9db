//! Blend modes: how a quad is combined with what is below it.
ghost use Rattle.std.specs.Prelude.{◌≡◌, Some, IsTrue};
ghost use Rattle.vz_pixels.specs.Colour.{scale};
ghost use Rattle.vz_frame.specs.Blending.{mode_number, mode_of, blend, laid, is_straight};

use vz_pixels::Pixel;

/// How a quad is combined with what is below it in its pass: laid over it, put in its place, or
/// used as its mask. These are three Porter-Duff modes on premultiplied colours; Chromium's
/// `SkBlendMode` has more.
#[derive(Clone, Copy, Debug, PartialEq, Eq)]
pub enum Blend {
    /// Source-over, the usual mode (`kSrcOver`).
    Over,
    /// The quad's colour replaces what is below it (`kSrc`).
    Src,
    /// What is below the quad is scaled by the alpha of the quad's colour (`kDstIn`).
    DstIn,
}

impl Blend {
    /// The number of the mode in a message file.
    pub fn number(self) -> u8
        ensures value { result ≡ mode_number self }
        ensures again { mode_of result ≡ Some self }
    {
        match self {
            Blend::Over => 0,
            Blend::Src => 1,
            Blend::DstIn => 2,
        }
    }

    /// Whether a colour of this opacity is drawn directly: with the mode `Over` and full opacity.
    pub fn is_straight(self, opacity: u8) -> bool
        ensures { result ≡ is_straight self opacity }
    {
        match self {
            Blend::Over => opacity == 255,
            Blend::Src => false,
            Blend::DstIn => false,
        }
    }

    /// A colour that is scaled by an opacity and then blended with the one below it.
    #[tactic(auto, unfolding(crate::specs::Blending::laid))]
    pub fn laid(self, colour: Pixel, opacity: u8, under: Pixel) -> Pixel
        ensures { result ≡ laid self colour opacity under }
    {
        self.apply(scaled(colour, opacity), under)
    }

    /// A colour blended with the one below it: over it, in its place, or as a mask of it.
    #[tactic(auto, unfolding(crate::specs::Blending::blend))]
    fn apply(self, colour: Pixel, under: Pixel) -> Pixel
        ensures { result ≡ blend self colour under }
    {
        match self {
            Blend::Over => colour.over(under),
            Blend::Src => colour,
            Blend::DstIn => under.scale(colour.a()),
        }
    }
}

/// A colour scaled by an opacity. At full opacity it is the colour itself.
pub fn scaled(colour: Pixel, opacity: u8) -> Pixel
    ensures { result ≡ scale colour opacity }
{
    if opacity == 255 {
        return colour;
    }
    colour.scale(opacity)
}
