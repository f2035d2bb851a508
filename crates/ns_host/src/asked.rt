//! What a host asks for, read from its lengths and bytes.

ghost use Rattle.std.specs.Prelude.{◌≡◌, ◌==◌, ◌++◌, ◌∷◌, [], drop, IfOk, map, OnOk, string_bytes, sum, take, true};
ghost use Rattle.std.specs.List.{list_all};
ghost use Rattle.std.specs.Str.{is_utf8};
ghost use Rattle.ns_host.specs.Host.{files_in, is_call as is_call_lem, pair_of, pairs, pieces, words_in};

use ns_base::no_memory::NoMemory;
use ns_base::text::Text;
use std::alloc::Global;

/// The words of a command, and the files that it finds.
#[derive(Drop)]
pub struct Asked {
    pub words: Vec<String>,
    pub files: Vec<(Text, Vec<u8>)>,
}

/// Whether the lengths divide the bytes into so many words, each of them UTF-8, and then into the names and texts of files.
pub fn is_call(words: usize, lengths: &[u64], bytes: &[u8]) -> bool
    ensures { result ≡ is_call_lem words lengths.now bytes.now }
{
    if words > lengths.len() {
        return false;
    }
    let (first, others) = lengths.split_at(words);
    others.len() % 2 == 0 && come_to(lengths, bytes.len() as u64) && are_texts(first, bytes)
}

/// Whether the lengths come to so many bytes together.
fn come_to(lengths: &[u64], whole: u64) -> bool
    ensures { result ≡ (sum lengths.now == whole) }
{
    let mut left = whole;
    for length in lengths {
        if *length > left {
            return false;
        }
        left -= *length;
    }
    left == 0
}

/// Whether each piece of these lengths is UTF-8.
fn are_texts(lengths: &[u64], bytes: &[u8]) -> bool
    ensures { result ≡ list_all is_utf8 (pieces lengths.now bytes.now) }
{
    let mut rest = bytes;
    for length in lengths {
        let (piece, more) = cut(rest, *length);
        if !is_text(piece) {
            return false;
        }
        rest = more;
    }
    true
}

/// Whether the bytes are UTF-8.
fn is_text(bytes: &[u8]) -> bool
    ensures { result ≡ is_utf8 bytes.now }
{
    match std::str::from_utf8(bytes) {
        Ok(_) => true,
        Err(_) => false,
    }
}

/// The first so many bytes, or all where there are fewer, and the others.
fn cut(bytes: &[u8], length: u64) -> (&[u8], &[u8])
    ensures first { result.0.now ≡ take length bytes.now }
    ensures others { result.1.now ≡ drop length bytes.now }
{
    bytes.split_at(bytes.len().min(length as usize))
}

/// The words and the files that are asked for so.
#[tactic(auto, using(crate::proofs::Pieces::are_texts))]
pub fn read(alloc: Global, words: usize, lengths: &[u64], bytes: &[u8]) -> Result<Asked, NoMemory>
    requires { is_call_lem words lengths.now bytes.now ≡ true }
    ensures words { IfOk result (λ asked. map string_bytes asked.words.items ≡ words_in words lengths.now bytes.now) }
    ensures files { IfOk result (λ asked. map pair_of asked.files.items ≡ files_in words lengths.now bytes.now) }
{
    let (first, others) = lengths.split_at(words);
    let (words, rest) = words_of(alloc, first, bytes)?;
    let files = files_of(alloc, others, rest)?;
    Ok(Asked { words, files })
}

/// The words of these lengths, and the bytes behind them.
fn words_of<'a>(
    alloc: Global,
    lengths: &[u64],
    bytes: &'a [u8],
) -> Result<(Vec<String>, &'a [u8]), NoMemory>
    requires { list_all is_utf8 (pieces lengths.now bytes.now) ≡ true }
    ensures words { IfOk result (λ r. map string_bytes r.0.items ≡ pieces lengths.now bytes.now) }
    ensures others { IfOk result (λ r. r.1.now ≡ drop (sum lengths.now) bytes.now) }
{
    let mut rest = bytes;
    let mut words = Vec::new(alloc);
    for length in lengths {
        let (piece, more) = cut(rest, *length);
        push_word(alloc, &mut words, piece)?;
        rest = more;
    }
    Ok((words, rest))
}

/// Puts a word behind the others.
fn push_word(alloc: Global, words: &mut Vec<String>, word: &[u8]) -> Result<(), NoMemory>
    requires { is_utf8 word.now ≡ true }
    ensures { OnOk result (map string_bytes words.new.items ≡ map string_bytes words.old.items ++ word.now ∷ []) }
{
    match std::str::from_utf8(word) {
        Ok(word) => {
            words.push(String::from_str(alloc, word)?)?;
            Ok(())
        }
        Err(_) => unreachable!(),
    }
}

/// The files of these lengths, of which each two are of a name and of its text.
fn files_of(alloc: Global, lengths: &[u64], bytes: &[u8]) -> Result<Vec<(Text, Vec<u8>)>, NoMemory>
    ensures { IfOk result (λ files. map pair_of files.items ≡ pairs (pieces lengths.now bytes.now)) }
{
    let mut rest = bytes;
    let mut named: Option<&[u8]> = None;
    let mut files = Vec::new(alloc);
    for length in lengths {
        let (piece, more) = cut(rest, *length);
        match named {
            None => named = Some(piece),
            Some(name) => {
                push_file(alloc, &mut files, name, piece)?;
                named = None;
            }
        }
        rest = more;
    }
    Ok(files)
}

/// Puts a file behind the others.
fn push_file(
    alloc: Global,
    files: &mut Vec<(Text, Vec<u8>)>,
    name: &[u8],
    text: &[u8],
) -> Result<(), NoMemory>
    ensures { OnOk result (map pair_of files.new.items ≡ map pair_of files.old.items ++ (name.now, text.now) ∷ []) }
{
    files.push((Text::of(alloc, name)?, Vec::from_slice(alloc, text)?))?;
    Ok(())
}
