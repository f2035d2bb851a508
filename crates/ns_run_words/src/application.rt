//! Words that ask for an application: letters of what it is granted, `=`, and the names of its files.

ghost use Rattle.std.specs.Prelude.{◌≡◌, ◌≤◌, ◌<◌, IfSome, IfOk, length, map, string_bytes};
ghost use Rattle.std.specs.Option.{is_some};
ghost use Rattle.ns_run_words.specs.Application as spec;
ghost use Rattle.ns_run_words.specs.Line.{asked_seen};

use crate::words::is_file_name;
use ns_base::no_memory::NoMemory;
use std::alloc::Global;

/// The most files of an application.
const MOST_FILES: u32 = 16;

/// What a word asks for: what the application is granted, and the names of its files, joined by `+`.
#[derive(Clone, Copy)]
pub struct Asked<'a> {
    pub console: bool,
    pub kernel: bool,
    pub mirrors: bool,
    pub board: bool,
    pub names: &'a str,
}

/// What a word asks for, where it can be an application.
pub fn application_of(word: &str) -> Option<Asked<'_>>
    ensures is { is_some result ≡ spec.is_application word.now }
    ensures asked { IfSome result (λ asked. asked_seen asked ≡ spec.asked_of word.now) }
{
    let (console, rest) = letter('c', word);
    let (kernel, rest) = letter('k', rest);
    let (mirrors, rest) = letter('m', rest);
    let (board, rest) = letter('b', rest);
    let (ends, names) = letter('=', rest);
    if ends && are_few(MOST_FILES, names) {
        Some(Asked {
            console,
            kernel,
            mirrors,
            board,
            names,
        })
    } else {
        None
    }
}

/// Whether a text begins with a letter, and what is left behind it.
fn letter(letter: char, text: &str) -> (bool, &str)
    requires { letter < 128 }
    ensures is { result.0 ≡ spec.begins letter text.now }
    ensures rest { result.1.now ≡ spec.without letter text.now }
{
    match text.strip_prefix(letter) {
        Some(rest) => (true, rest),
        None => (false, text),
    }
}

/// Whether names are at most so many, each that of a file.
fn are_few(most: u32, names: &str) -> bool
    ensures { result ≡ spec.are_few most (spec.names_in names.now) }
{
    if most == 0 {
        return false;
    }
    match names.split_once('+') {
        Some((name, rest)) => is_file_name(name.as_bytes()) && are_few(most - 1, rest),
        None => is_file_name(names.as_bytes()),
    }
}

/// The names that `+` joins.
pub fn names_in(alloc: Global, text: &str) -> Result<Vec<String>, NoMemory>
    ensures names { IfOk result (λ names. map string_bytes names.items ≡ spec.names_in text.now) }
    ensures some { IfOk result (λ names. 1 ≤ length names.items) }
{
    let mut names = Vec::new(alloc);
    let mut left = text;
    while let Some((name, rest)) = left.split_once('+') {
        names.push(String::from_str(alloc, name)?)?;
        left = rest;
    }
    names.push(String::from_str(alloc, left)?)?;
    Ok(names)
}
