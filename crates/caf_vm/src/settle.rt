//! The address after every `go`.

ghost use Rattle.std.specs.Prelude.{◌≡◌, length, slice_get};
ghost use Rattle.caf_code.specs.Step.{go_of, settled, settled_in};
ghost use Rattle.caf_code.specs.Task.{Task};
ghost use Rattle.caf_code.specs.Whole.{IsSettled};

use caf_code::{Code, Instr, steps_lack_nothing};

// The address of a code after every `go`.
pub fn settle_in(code: &Code, address: usize) -> usize
    ensures settled { result ≡ settled_in code.now address }
    ensures rests { (t : Task) → t.address ≡ result → IsSettled code.now t }
{
    steps_lack_nothing();
    settle(code.listing().instrs.as_slice(), address)
}

// The address after every `go`. No cycle consists of `go` alone, so there are no more of them than instructions.
#[tactic(auto, using(crate::proofs::Settled::settled_turn, crate::proofs::Settled::settled_same))]
fn settle(instrs: &[Instr], address: usize) -> usize
    ensures { result ≡ settled instrs.now (length instrs.now) address }
{
    let mut at = address;
    for _turn in 0..instrs.len() {
        match go_from(fetch(instrs, at)) {
            Some(to) => at = to as usize,
            None => return at,
        }
    }
    at
}

// The instruction at an address.
fn fetch(instrs: &[Instr], address: usize) -> Option<Instr>
    ensures { result ≡ slice_get instrs.now address }
{
    instrs.get(address).copied()
}

// Where an instruction leads that is a `go`.
fn go_from(instr: Option<Instr>) -> Option<u32>
    ensures { result ≡ go_of instr }
{
    match instr {
        Some(Instr::Go(to)) => Some(to),
        _ => None,
    }
}
