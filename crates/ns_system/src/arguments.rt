//! The words of the command line.

ghost use Rattle.std.specs.Prelude.{◌≡◌, ℕ, List, Option, Some, IfOk, IfSome, drop, map, string_bytes};
ghost use Rattle.std.specs.Io.{WritesAtMost};
ghost use Rattle.ns_system.specs.Line.{AnswersWord, AreWords, IsFound, word_at};

use ns_base::no_memory::NoMemory;
use std::alloc::Global;
use std::env::FillError;

/// Where the words of a command line are.
pub trait Words {
    /// The words, the program's name first, where they are told.
    ghost words: { Self → Option (List (List ℕ)) };

    /// Puts the word of that number at the start of the buffer, and answers how long it is; or says that the buffer is too short
    /// for it, or that there is none.
    fn word(&self, i: usize, buffer: &mut [u8]) -> Result<usize, FillError>
        ensures bound { WritesAtMost result buffer.new }
        ensures told { IfSome (words self.now) (λ told. AnswersWord (word_at told i) buffer.new result) };
}

/// The words behind the program's name, up to the first that is no text.
#[derive(Drop)]
pub struct CommandLine {
    pub words: Vec<String>,
    /// Whether a word that is no text stands behind them.
    pub cut: bool,
}

/// What stands at a place of the command line.
#[derive(Drop)]
pub enum Found {
    Text(String),
    /// Its bytes are not UTF-8.
    Other,
    /// There is none of that number.
    End,
}

/// The words behind the program's name, in their order, up to the first that is no text.
#[tactic(auto, using(crate::proofs::Read::none_read, crate::proofs::Read::more_pushed, crate::proofs::Read::cut_read, crate::proofs::Read::all_read))]
pub fn arguments<W: Words>(from: &W, alloc: Global) -> Result<CommandLine, NoMemory>
    ensures { IfOk result (λ line. IfSome (W.words from.now) (λ told. AreWords (drop 1 told) (map string_bytes line.words.items) line.cut)) }
{
    let mut words = Vec::new(alloc);
    'words: for i in 1..usize::MAX {
        match argument(from, alloc, i)? {
            Found::Text(word) => words.push(word)?,
            Found::Other => return Ok(CommandLine { words, cut: true }),
            Found::End => return Ok(CommandLine { words, cut: false }),
        }
    }
    Err(NoMemory)
}

/// What stands at a place of the command line. It is read into a buffer that grows until it fits.
fn argument<W: Words>(from: &W, alloc: Global, i: usize) -> Result<Found, NoMemory>
    ensures { IfOk result (λ found. IfSome (W.words from.now) (λ told. IsFound (word_at told i) found)) }
{
    let mut size: usize = 256;
    'sizes: for _ in 0..56 {
        match argument_within(from, alloc, i, size)? {
            Some(found) => return Ok(found),
            None => size = size.saturating_mul(2),
        }
    }
    Err(NoMemory)
}

/// What stands at a place of the command line, if a buffer of that size is long enough for it.
#[tactic(auto, using(crate::proofs::Read::filled))]
fn argument_within<W: Words>(
    from: &W,
    alloc: Global,
    i: usize,
    size: usize,
) -> Result<Option<Found>, NoMemory>
    ensures { IfOk result (λ found. IfSome found (λ found. IfSome (W.words from.now) (λ told. IsFound (word_at told i) found))) }
{
    let mut buffer = vec![in alloc; 0u8; size]?;
    match from.word(i, buffer.as_mut_slice()) {
        Ok(n) => Ok(Some(found_in(alloc, &buffer.as_slice()[..n])?)),
        Err(FillError::NotPresent) => Ok(Some(Found::End)),
        Err(FillError::TooLong) => Ok(None),
    }
}

/// What a word of these bytes is.
fn found_in(alloc: Global, bytes: &[u8]) -> Result<Found, NoMemory>
    ensures { IfOk result (IsFound (Some bytes.now)) }
{
    match std::str::from_utf8(bytes) {
        Ok(text) => Ok(Found::Text(String::from_str(alloc, text)?)),
        Err(_) => Ok(Found::Other),
    }
}
