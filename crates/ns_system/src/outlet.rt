//! What takes bytes: a stream of the system, or a file that is being written.

ghost use Rattle.std.specs.Prelude.{◌≡◌, ℕ, List, ◌≤◌, length, drop, take, Option, IfNone, IfSome, true};
ghost use Rattle.std.specs.Io.{WritesAtMost};
ghost use Rattle.ns_base.specs.Sink.{WrotePrefix, with_bytes};
ghost use Rattle.ns_system.specs.Stream.{Takes};

use std::io::{self, ErrorKind};

/// What takes bytes, some at a time.
pub trait Outlet {
    /// The bytes so far, where the outlet tells them.
    ghost written: { Self → Option (List ℕ) };

    /// Takes some of the bytes, from the first on, and answers how many. Where it fails it took none.
    fn write(&mut self, bytes: &[u8]) -> io::Result<usize>
        ensures bound { WritesAtMost result bytes.now }
        ensures takes { Takes bytes.now result (written self.old) (written self.new) };

    /// Waits until it may take more.
    fn wait(&mut self)
        ensures { written self.new ≡ written self.old };
}

/// True where the outlet took all bytes.
pub fn put_all<W: Outlet>(to: &mut W, bytes: &[u8]) -> bool
    ensures whole { result ≡ true → W.written to.new ≡ with_bytes bytes.now (W.written to.old) }
    ensures cut { WrotePrefix bytes.now (W.written to.old) (W.written to.new) }
{
    let mut done = 0;
    'pieces: for _ in 0..u64::MAX {
        if done == bytes.len() {
            return true;
        }
        match put_some(to, rest_of(bytes, done)) {
            Some(n) => done += n,
            None => return false,
        }
    }
    false
}

/// How many bytes the outlet took of some: none yet where it was interrupted or has to be waited for. Where it failed, or took none
/// of its own, there is no number.
fn put_some<W: Outlet>(to: &mut W, bytes: &[u8]) -> Option<usize>
    ensures bound { IfSome result (λ n. n ≤ length bytes.now) }
    ensures some { IfSome result (λ n. W.written to.new ≡ with_bytes (take n bytes.now) (W.written to.old)) }
    ensures none { IfNone result (W.written to.new ≡ W.written to.old) }
{
    match to.write(bytes) {
        Ok(0) => None,
        Ok(n) => Some(n),
        Err(e) => match e.kind() {
            ErrorKind::Interrupted => Some(0),
            ErrorKind::WouldBlock => {
                to.wait();
                Some(0)
            }
            _ => None,
        },
    }
}

/// The bytes from a place on.
fn rest_of(bytes: &[u8], at: usize) -> &[u8]
    requires { at ≤ length bytes.now }
    ensures { result.now ≡ drop at bytes.now }
{
    &bytes[at..]
}
