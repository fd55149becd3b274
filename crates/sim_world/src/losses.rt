//! The frames that an interface loses.

ghost use Rattle.std.specs.Prelude.{◌≡◌, ◌≤◌, ◌&&◌, ◌==◌, pos, All, None, Some, IfOk, IfSome};
ghost use Rattle.std.specs.Ordering.{int_eq};
ghost use Rattle.sim_world.specs.Losses.{IsLoss, kind_of, loss_at, loss_of};

use iface_step::Place;
use scenario_form::Loss as Listed;
use sim_base::{Loss, LossKind, NoMemory};
use std::alloc::Global;

/// The loss of an interface, to which no frame has come yet.
pub fn loss_on(alloc: Global, losses: &[Listed], place: Place) -> Result<Loss, NoMemory>
    requires { All IsLoss losses.now }
    ensures { IfOk result (λ loss. loss ≡ loss_of (loss_at place losses.now)) }
{
    for loss in losses {
        if is_at(loss, place) {
            return made(alloc, loss);
        }
    }
    Ok(Loss::none(alloc))
}

fn is_at(loss: &Listed, place: Place) -> bool
    ensures { result ≡ ((loss.now.node.0 == place.node.0) && int_eq loss.now.iface (pos place.iface)) }
{
    loss.node.0 == place.node.0 && loss.iface == i64::from(place.iface)
}

/// A loss by the numbers of frames where these stand, or else by a draw.
fn made(alloc: Global, loss: &Listed) -> Result<Loss, NoMemory>
    requires { IsLoss loss.now }
    ensures { IfOk result (λ made. made ≡ loss_of (Some loss.now)) }
{
    match &loss.frames {
        Some(frames) => Loss::make(alloc, LossKind::Frames, frames.as_slice(), &[], 0),
        None => Loss::make(alloc, kind_of(loss.millionths), &[], &[], 0),
    }
}

fn kind_of(millionths: Option<u64>) -> LossKind
    requires { IfSome millionths (λ m. m ≤ 1000000) }
    ensures { result ≡ kind_of None millionths }
{
    match millionths {
        Some(millionths) => LossKind::Millionths {
            millionths: millionths as u32,
        },
        None => LossKind::None,
    }
}
