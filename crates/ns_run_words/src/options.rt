//! The options of tests, of audits and of runs.

ghost use Rattle.std.specs.Prelude.{◌≡◌, IfOk, Some, codes, drop, length, map, option_map, string_bytes};
ghost use Rattle.ns_run_words.specs.Options.{value_behind as value_behind_lem};
ghost use Rattle.ns_run_words.specs.Options as spec;

use crate::form::Form;
use crate::words::{Given, is_file_name};
use ns_base::no_memory::NoMemory;
use ns_base::spelled::{is_identifier, is_selector};
use ns_base::text::Text;
use std::alloc::Global;

/// What is given with a word more that is an option of tests, where the form takes these.
pub fn tests_where(takes: bool, given: Given, word: &[u8]) -> Option<Given>
    ensures { result ≡ spec.tests_where takes given word.now }
{
    if !takes {
        return None;
    }
    if word == b"--reverse".as_slice() {
        return with_reverse(given);
    }
    match value_behind(b"--only=", word) {
        Some(name) => with_only(given, name),
        None => None,
    }
}

fn with_reverse(given: Given) -> Option<Given>
    ensures { result ≡ spec.with_reverse given }
{
    if given.reverse {
        None
    } else {
        Some(Given {
            reverse: true,
            ..given
        })
    }
}

/// What is given with the name of the one test, where none was named before.
fn with_only(given: Given, name: &[u8]) -> Option<Given>
    ensures { result ≡ spec.with_only given (Some name.now) }
{
    if given.only {
        return None;
    }
    if is_identifier(name) {
        Some(Given {
            only: true,
            ..given
        })
    } else {
        None
    }
}

/// What is given with a word more that is a denial, where the form takes these.
pub fn denial_where(takes: bool, given: Given, word: &[u8]) -> Option<Given>
    ensures { result ≡ spec.denial_where takes given word.now }
{
    if !takes {
        return None;
    }
    match value_behind(b"--deny=", word) {
        Some(text) => with_denied(given, text),
        None => None,
    }
}

/// What is given with one more denied selector, of at most 16.
fn with_denied(given: Given, text: &[u8]) -> Option<Given>
    ensures { result ≡ spec.with_denied given (Some text.now) }
{
    if is_selector(text) && given.denied < 16 {
        Some(Given {
            denied: given.denied + 1,
            ..given
        })
    } else {
        None
    }
}

/// What is given with a word more that is an option of runs, where the form takes these.
pub fn run_where(takes: bool, given: Given, word: &[u8]) -> Option<Given>
    ensures { result ≡ spec.run_where takes given word.now }
{
    if !takes {
        return None;
    }
    if word == b"--stats".as_slice() {
        return with_stats(given);
    }
    if word == b"--trace".as_slice() {
        return with_trace(given);
    }
    if word == b"--true".as_slice() {
        return with_truth(given);
    }
    match value_behind(b"--text=", word) {
        Some(name) => with_text(given, name),
        None => None,
    }
}

fn with_stats(given: Given) -> Option<Given>
    ensures { result ≡ spec.with_stats given }
{
    if given.stats {
        None
    } else {
        Some(Given {
            stats: true,
            ..given
        })
    }
}

fn with_trace(given: Given) -> Option<Given>
    ensures { result ≡ spec.with_trace given }
{
    if given.trace {
        None
    } else {
        Some(Given {
            trace: true,
            ..given
        })
    }
}

fn with_truth(given: Given) -> Option<Given>
    ensures { result ≡ spec.with_truth given }
{
    if given.truth {
        None
    } else {
        Some(Given {
            truth: true,
            ..given
        })
    }
}

/// What is given with one more file of a text, of at most 255.
fn with_text(given: Given, name: &[u8]) -> Option<Given>
    ensures { result ≡ spec.with_text given (Some name.now) }
{
    if is_file_name(name) && given.texts < 255 {
        Some(Given {
            texts: given.texts + 1,
            ..given
        })
    } else {
        None
    }
}

/// The most arguments behind what is given, where the form takes any: each text is one of them.
pub fn arguments_of(form: Form, given: Given) -> Option<u64>
    ensures { result ≡ spec.arguments_of form given }
{
    match form.arguments {
        Some(most) => Some(most.saturating_sub(given.texts)),
        None => None,
    }
}

/// The file of a text that a word names which is the option of texts.
pub fn text_in(option: &str) -> Option<&str>
    ensures { option_map (λ name. name.now) result ≡ value_behind_lem (codes "--text=") option.now }
{
    option.strip_prefix("--text=")
}

/// The one test that options name, if they name one.
pub fn only_among(options: &[String]) -> Option<&[u8]>
    ensures { option_map (λ name. name.now) result ≡ spec.only_among (map string_bytes options.now) }
{
    'options: for option in options {
        let name = value_behind(b"--only=", option.as_bytes());
        if name.is_some() {
            return name;
        }
    }
    None
}

/// The selectors that options deny.
pub fn denied_texts(alloc: Global, options: &[String]) -> Result<Vec<Text>, NoMemory>
    ensures { IfOk result (λ denied. denied.items ≡ spec.denied_by (map string_bytes options.now)) }
{
    let mut denied = Vec::new(alloc);
    'options: for option in options {
        match value_behind(b"--deny=", option.as_bytes()) {
            Some(text) => denied.push(Text::of(alloc, text)?)?,
            None => (),
        }
    }
    Ok(denied)
}

/// What stands behind the name of an option, in a word that begins with it.
pub fn value_behind<'a>(name: &[u8], word: &'a [u8]) -> Option<&'a [u8]>
    ensures { option_map (λ value. value.now) result ≡ spec.value_behind name.now word.now }
{
    if word.len() < name.len() {
        return None;
    }
    let (front, value) = word.split_at(name.len());
    if front == name { Some(value) } else { None }
}
