//! The call of a host.

ghost use Rattle.std.specs.Prelude.{◌≡◌, IfOk, IsSomeAnd, map, None, string_bytes, true};
ghost use Rattle.std.specs.Bool.{OnFalse, OnTrue};
ghost use Rattle.ns_base.specs.Stored.{file_at};
ghost use Rattle.ns_host.specs.Host.{Gives, HasAll, IsUntouched, bytes_stored as bytes_stored_lem, files_named, is_call as is_call_lem, words_in};
ghost use Rattle.ns_run.specs.Meaning.{meaning};
ghost use Rattle.ns_run_outcome.specs.Outcome.{IsEnding};

use crate::asked::{Asked, is_call, read};
use ns_base::no_memory::NoMemory;
use ns_base::status::Status;
use ns_base::sure_shelf::SureShelf;
use ns_base::text::Text;
use ns_reply::give::give;
use ns_run::top::work;
use ns_run_outcome::report::{Report, Stored};
use ns_run_outcome::stop::Stop;
use std::alloc::Global;

/// How many bytes there are for each room of a host.
#[repr(C)]
#[derive(Clone, Copy)]
pub struct Lengths {
    /// What the command writes to standard output.
    pub out: u64,
    /// What the command writes to standard error.
    pub err: u64,
    /// What the command stores.
    pub stored: u64,
}

/// Where nothing is given.
const NOTHING: Lengths = Lengths {
    out: 0,
    err: 0,
    stored: 0,
};

/// Carries out the command of these words over these files, and gives what it writes and what it stores. Where the lengths don't
/// divide the bytes into words and files, or a word isn't UTF-8, there is no status.
pub fn call(
    alloc: Global,
    words: usize,
    lengths: &[u64],
    bytes: &[u8],
    out: &mut [u8],
    err: &mut [u8],
    stored: &mut [u8],
    told: &mut Lengths,
) -> Option<Status>
    ensures told { OnTrue (is_call_lem words lengths.now bytes.now)
        (IsSomeAnd result (λ status. Gives (meaning (words_in words lengths.now bytes.now) (files_named words lengths.now bytes.now)) status
        (record { out = out.old; err = err.old; stored = stored.old }) (record { out = out.new; err = err.new; stored = stored.new }) told.new)) }
    ensures malformed { OnFalse (is_call_lem words lengths.now bytes.now)
        ((result ≡ None) × IsUntouched
        (record { out = out.old; err = err.old; stored = stored.old }) (record { out = out.new; err = err.new; stored = stored.new }) told.new) }
{
    *told = NOTHING;
    if !is_call(words, lengths, bytes) {
        return None;
    }
    match reported(alloc, words, lengths, bytes) {
        Err(NoMemory) => Some(Status::Memory),
        Ok(report) => {
            *told = give_all(&report, out, err, stored);
            Some(report.status)
        }
    }
}

/// The report of the command that is asked for so.
#[tactic(auto, using(crate::proofs::Pieces::same_meaning))]
fn reported(alloc: Global, words: usize, lengths: &[u64], bytes: &[u8]) -> Result<Report, NoMemory>
    requires { is_call_lem words lengths.now bytes.now ≡ true }
    ensures meant { IfOk result (λ report. report ≡ meaning (words_in words lengths.now bytes.now) (files_named words lengths.now bytes.now)) }
    ensures ending { IfOk result (λ report. IsEnding report.status) }
{
    let Asked { words, files } = read(alloc, words, lengths, bytes)?;
    worked(alloc, words.as_slice(), files)
}

/// The report of the command of these words over these files.
fn worked(alloc: Global, words: &[String], files: Vec<(Text, Vec<u8>)>) -> Result<Report, NoMemory>
    ensures meant { IfOk result (λ report. report ≡ meaning (map string_bytes words.now) (file_at files.items)) }
    ensures ending { IfOk result (λ report. IsEnding report.status) }
{
    let mut shelf = SureShelf { files, misses: 0 };
    match work(alloc, words, &mut shelf) {
        Ok(report) => Ok(report),
        Err(Stop::Memory) => Err(NoMemory),
        // No load fails on this shelf.
        Err(Stop::ReadFault) => unreachable!(),
    }
}

/// Gives all that the report says, and answers how much that is.
fn give_all(report: &Report, out: &mut [u8], err: &mut [u8], stored: &mut [u8]) -> Lengths
    ensures { HasAll report.now
        (record { out = out.old; err = err.old; stored = stored.old }) (record { out = out.new; err = err.new; stored = stored.new }) result }
{
    Lengths {
        out: give(report.out.bytes(), out),
        err: give(report.err.bytes(), err),
        stored: give(bytes_stored(&report.stored), stored),
    }
}

/// The bytes that are stored; none where nothing is.
fn bytes_stored(stored: &Option<Stored>) -> &[u8]
    ensures { result.now ≡ bytes_stored_lem stored.now }
{
    match stored {
        None => b"",
        Some(stored) => stored.bytes.bytes(),
    }
}
