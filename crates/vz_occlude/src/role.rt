//! What an operation is to the other ones of its list.
ghost use Rattle.std.specs.Prelude.{◌≡◌, true, false};
ghost use Rattle.vz_flat.specs.Ops.{is_inside};
ghost use Rattle.vz_occlude.specs.Occluders.{is_occluder};
ghost use Rattle.vz_occlude.specs.Roles.{role_of, occludes};

use crate::texels::is_opaque_blit;
use vz_flat::Op;
use vz_frame::Blend;
use vz_geom::Rect;

/// What an operation is to the other ones of its list: an item, or an end of a group.
#[derive(Clone, Copy)]
pub(crate) enum Role {
    /// A `Fill` or a `Blit`.
    Single {
        /// The pixels that it changes.
        area: Rect,
    },
    /// A `Push`.
    Begins {
        /// The pixels that its group changes.
        area: Rect,
    },
    /// A `Pop`.
    Ends,
}

/// What an operation is to the other ones of its list.
pub(crate) fn role_of(op: &Op) -> Role
    ensures { result ≡ role_of op.now }
{
    match op {
        Op::Fill { area, .. } => Role::Single { area: *area },
        Op::Blit { area, .. } => Role::Single { area: *area },
        Op::Push { area, .. } => Role::Begins { area: *area },
        Op::Pop => Role::Ends,
    }
}

/// Whether an operation is an occluder: it leaves nothing in its area of what was there before. A
/// group is none. The texels of a `Blit` are inside its block.
pub(crate) fn occludes(op: &Op) -> bool
    requires { is_inside op.now ≡ true }
    ensures { result ≡ occludes op.now }
{
    match op {
        Op::Fill {
            color,
            opacity,
            blend,
            ..
        } => is_replacing(*blend) || may_occlude(*blend, *opacity) && color.a() == 255,
        Op::Blit {
            area,
            block,
            tx,
            ty,
            opacity,
            blend,
        } => {
            is_replacing(*blend)
                || may_occlude(*blend, *opacity) && is_opaque_blit(area, block, tx, ty)
        }
        Op::Push { .. } => false,
        Op::Pop => false,
    }
}

/// Whether opaque colours are occluders in this mode and at this opacity.
fn may_occlude(mode: Blend, opacity: u8) -> bool
    ensures { result ≡ is_occluder mode opacity true }
{
    match mode {
        Blend::Over => opacity == 255,
        Blend::Src => true,
        Blend::DstIn => false,
    }
}

/// Whether all colours are occluders in this mode.
fn is_replacing(mode: Blend) -> bool
    ensures { result ≡ is_occluder mode 0 false }
{
    match mode {
        Blend::Over => false,
        Blend::Src => true,
        Blend::DstIn => false,
    }
}
