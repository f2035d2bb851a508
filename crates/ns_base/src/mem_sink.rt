//! A sink over memory on which listed calls fail.

ghost use Rattle.std.specs.Prelude.{◌≡◌, ◌≤◌, IfOk, OnOk, OnErr, Some, []};
ghost use Rattle.std.specs.Result.{is_ok};
ghost use Rattle.ns_base.specs.Count.{Rose};
ghost use Rattle.ns_base.specs.MemSink as spec;
ghost use Rattle.ns_base.specs.MemSink.{IsReserved, Puts, takes_whole};
ghost use Rattle.ns_base.specs.Sink.{WrotePrefix, with_bytes};

use crate::no_memory::NoMemory;
use crate::sink::{Sink, SinkFailed};
use std::alloc::Global;

/// Bytes in memory, of which so many have room.
#[derive(Drop)]
pub struct MemSink {
    /// What was written.
    pub bytes: Vec<u8>,
    /// The most bytes that it takes.
    pub room: u64,
    /// The calls that fail: the number of the call, from 0, and how many bytes it still takes.
    pub fail_at: Vec<(u64, u64)>,
    /// How many calls there were.
    pub calls: u64,
    /// How many puts failed.
    pub faults: u64,
}

impl MemSink {
    /// An empty sink with room for so many bytes, which it reserves. No call fails yet.
    pub fn new(alloc: Global, room: u64) -> Result<MemSink, NoMemory>
        ensures empty { IfOk result (λ s. s.bytes.items ≡ []) }
        ensures room { IfOk result (λ s. s.room ≡ room) }
        ensures sure { IfOk result (λ s. s.fail_at.items ≡ []) }
        ensures faults { IfOk result (λ s. s.faults ≡ 0) }
        ensures calls { IfOk result (λ s. s.calls ≡ 0) }
        ensures reserved { IfOk result (λ s. IsReserved s) }
    {
        Ok(MemSink {
            bytes: Vec::with_capacity(alloc, room as usize)?,
            room,
            fail_at: Vec::new(alloc),
            calls: 0,
            faults: 0,
        })
    }
}

impl Sink for MemSink {
    ghost use Rattle.std.specs.Prelude.{Some};

    ghost written = { λ s. Some s.bytes.items };

    ghost faults = { λ s. s.faults };

    /// Writes what it takes of the piece. Where its room is reserved it fails exactly where that isn't all.
    fn put(&mut self, piece: &[u8]) -> Result<(), SinkFailed>
        ensures puts { IsReserved self.old → Puts piece.now self.old self.new }
        ensures whole { IsReserved self.old → is_ok result ≡ takes_whole self.old piece.now }

        ensures faults { self.old.faults ≤ self.new.faults }
        ensures ok { OnOk result (Some self.new.bytes.items ≡ with_bytes piece.now (Some self.old.bytes.items)) }
        ensures err { OnErr result (WrotePrefix piece.now (Some self.old.bytes.items) (Some self.new.bytes.items)) }
        ensures failed { OnErr result (Rose self.old.faults self.new.faults) }
    {
        let call = self.calls;
        self.calls = call.saturating_add(1);
        let room = self.room.saturating_sub(self.bytes.len() as u64);
        let most = piece.len().min(room as usize);
        let taken = allowed(self.fail_at.as_slice(), call, most);
        let whole = taken == piece.len();
        if self.bytes.extend_from_slice(&piece[..taken]).is_err() || !whole {
            self.faults = self.faults.saturating_add(1);
            return Err(SinkFailed);
        }
        Ok(())
    }
}

/// The most bytes that a call of that number takes.
fn allowed(fail_at: &[(u64, u64)], call: u64, most: usize) -> usize
    ensures allowed { result ≡ spec.allowed fail_at.now call most }
    ensures at_most { result ≤ most }
{
    let mut least = most;
    for (failing, bytes) in fail_at {
        if *failing == call {
            least = least.min(*bytes as usize);
        }
    }
    least
}
