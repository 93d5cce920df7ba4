ghost use Rattle.std.specs.Prelude.{◌≡◌, ◌<◌, ℕ, length, take, OnOk, OnErr, Some};
ghost use Rattle.std.specs.Io.KnownBytes.{Appends};
ghost use Rattle.caf_outside.specs.Causes.{HasCause};

use caf_outside::{Failed, Sink};

/// Writes all the bytes, or fails after a part that is not all of them.
pub(crate) fn write_all<O: Sink>(out: &mut O, bytes: &[u8]) -> Result<(), Failed>
    ensures ok { OnOk result (Appends (O.taken out.old) (O.taken out.new) bytes.now) }
    ensures err { OnErr result ((n : ℕ) × (n < length bytes.now) × Appends (O.taken out.old) (O.taken out.new) (take n bytes.now)) }
    ensures cause { HasCause (O.faults out.old) (O.faults out.new) result }
{
    let mut done = 0;
    while done < bytes.len() {
        done += out.write(&bytes[done..])?;
    }
    Ok(())
}
