ghost use Rattle.std.specs.Prelude.{◌≡◌, None};

use crate::{Failed, Sink};
use std::io;
use std::io::Write;

/// Standard output. It tells nothing of what it took.
#[derive(Drop)]
pub struct StdSink<'a, P: Print> {
    out: io::Printer<'a, P>,
    faults: u64,
}

impl<'a, P: Print> StdSink<'a, P> {
    pub fn new(rt: &'a P) -> StdSink<'a, P>
        ensures { ⟦<StdSink<'a, P> as Sink>⟧.faults result ≡ 0 }
    {
        StdSink {
            out: io::writer(rt),
            faults: 0,
        }
    }
}

impl<P: Print> Sink for StdSink<'_, P> {
    ghost taken = { λ _. None };

    ghost faults = { λ sink. sink.faults };

    fn write(&mut self, piece: &[u8]) -> Result<usize, Failed> {
        match self.out.write(piece) {
            Ok(count) if count > 0 || piece.is_empty() => Ok(count),
            _ => {
                self.faults = self.faults.saturating_add(1);
                Err(Failed)
            }
        }
    }
}
