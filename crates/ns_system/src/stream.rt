//! A stream of the system as a sink: it passes on each byte, or counts a fault.

ghost use Rattle.std.specs.Prelude.{◌≡◌};

use crate::outlet::{Outlet, put_all};
use crate::telling::TellingSink;
use ns_base::sink::{Sink, SinkFailed};

/// A stream of the system, with how many puts failed.
#[derive(Drop)]
pub struct Stream<W> {
    pub to: W,
    pub faults: u64,
}

impl<W> Stream<W> {
    /// The stream, on which no put failed yet.
    pub fn new(to: W) -> Stream<W>
        ensures to { result.to ≡ to }
        ensures faults { result.faults ≡ 0 }
    {
        Stream { to, faults: 0 }
    }
}

/// It tells the bytes that its outlet tells.
impl<W: Outlet> Sink for Stream<W> {
    ghost written = { λ s. W.written s.to };

    ghost faults = { λ s. s.faults };

    fn put(&mut self, piece: &[u8]) -> Result<(), SinkFailed> {
        if put_all(&mut self.to, piece) {
            Ok(())
        } else {
            self.faults = self.faults.saturating_add(1);
            Err(SinkFailed)
        }
    }
}

impl<W: Outlet> TellingSink for Stream<W> {
    fn failed_puts(&self) -> u64 {
        self.faults
    }
}
