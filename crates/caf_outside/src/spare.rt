ghost use Rattle.std.specs.Prelude.{◌≡◌, ◌≤◌, length, IfOk, All, vec_len, vec_capacity};
ghost use Rattle.caf_outside.specs.Spare.{HasRoom};

use crate::held::Held;
use caf_base::{Memory, Sequence};
use std::alloc::Global;

/// Room for a name and a text to be saved.
#[derive(Drop)]
pub(crate) struct Spare {
    pub(crate) name: Vec<u8>,
    pub(crate) bytes: Vec<u8>,
}

// The bytes in a buffer that has room for them.
fn filled(mut buffer: Vec<u8>, bytes: &[u8]) -> Sequence<u8>
    requires { length bytes.now ≤ vec_capacity buffer }
    ensures { result ≡ bytes.now }
{
    buffer.clear();
    buffer.extend_from_slice(bytes).unwrap();
    Sequence::from_vec(buffer)
}

impl Spare {
    fn new(alloc: Global, room: usize) -> Result<Spare, Memory>
        ensures { IfOk result (HasRoom room) }
    {
        Ok(Spare {
            name: Vec::with_capacity(alloc, room)?,
            bytes: Vec::with_capacity(alloc, room)?,
        })
    }

    /// The name and the text, where the spare has room for each.
    pub(crate) fn holding(self, name: &[u8], bytes: &[u8]) -> Held
        requires name_fits { length name.now ≤ vec_capacity self.name }
        requires bytes_fit { length bytes.now ≤ vec_capacity self.bytes }
        ensures name { result.name ≡ name.now }
        ensures bytes { result.bytes ≡ bytes.now }
    {
        Held {
            name: filled(self.name, name),
            bytes: filled(self.bytes, bytes),
        }
    }
}

/// As many spares, each with this room.
pub(crate) fn spares(alloc: Global, count: u32, room: usize) -> Result<Vec<Spare>, Memory>
    ensures count { IfOk result (λ spare. vec_len spare ≡ count) }
    ensures roomy { IfOk result (λ spare. All (HasRoom room) spare.items) }
{
    let mut spare = Vec::new(alloc);
    for _made in 0..count {
        spare.push(Spare::new(alloc, room)?)?;
    }
    Ok(spare)
}
