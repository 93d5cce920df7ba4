ghost use Rattle.std.specs.Prelude.{◌≡◌, ◌+◌, ◌*◌, ◌<◌, ◌≤◌, ◌^◌};
ghost use Rattle.caf_epochs.specs.Epoch.{class_of};

use crate::Class;

/// The class of a message at an image in a wave, by the epoch that the message was stamped with: twice the wave of its
/// sender at the sending, and one more if the sender had contributed to that wave.
pub fn class(epoch: u32, wave: u32) -> Class
    requires stamped { epoch ≤ 2 * wave + 1 }
    requires small { wave < 2 ^ 31 }
    ensures { result ≡ class_of epoch wave }
{
    if epoch < 2 * wave + 1 {
        Class::Even
    } else {
        Class::Odd
    }
}
