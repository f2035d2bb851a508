//! The program as a static library for C: one call over memory, and three on programs that a host keeps as bytes.
//! `crates/ns_host/specs/Host.antt` and `crates/ns_opened/specs/Host.antt` say what they ask for, and what is given.
//! Stands on ns_host and ns_opened; `include/nspk.h` tells C of it.
#![tactic(auto)]

ghost use Rattle.std.specs.Prelude.{◌≡◌, ◌==◌, ◌≢◌, not};
ghost use Rattle.std.specs.Bool.{OnFalse, OnTrue};
ghost use Rattle.ns_host.specs.Host.{Ends, IsUntouched, called, is_call};

use ns_host::call::{Lengths, call};
use std::alloc::Global;

pub mod program;

/// The status of a call of which the lengths don't divide the bytes into words and files, or a word isn't UTF-8.
pub const MALFORMED: u8 = 7;

/// Carries out the command of these words over these files, and gives what it writes and what it stores.
#[unsafe(no_mangle)]
pub extern "C" fn nspk_call(
    alloc: Global,
    words: usize,
    lengths: &[u64],
    bytes: &[u8],
    out: &mut [u8],
    err: &mut [u8],
    stored: &mut [u8],
    told: &mut Lengths,
) -> u8
    // A well-formed call ends as the meaning of its words over its files says, or without memory.
    ensures told { OnTrue (is_call words lengths.now bytes.now)
        (Ends (called words lengths.now bytes.now) result
        (record { out = out.old; err = err.old; stored = stored.old }) (record { out = out.new; err = err.new; stored = stored.new }) told.new) }
    // The status is 7 exactly where the call isn't well formed, and then nothing is given.
    ensures malformed { (result == MALFORMED) ≡ not (is_call words lengths.now bytes.now) }
    ensures nothing { OnFalse (is_call words lengths.now bytes.now) (IsUntouched
        (record { out = out.old; err = err.old; stored = stored.old }) (record { out = out.new; err = err.new; stored = stored.new }) told.new) }
    // No file is outside, and no stream: no call ends as a file that couldn't be read or a stream that couldn't be written.
    ensures no_fault { (result ≢ 4) × (result ≢ 5) }
{
    match call(alloc, words, lengths, bytes, out, err, stored, told) {
        Some(status) => status.exit_code(),
        None => MALFORMED,
    }
}
