//! The option of the steps behind which a run is paused.

ghost use Rattle.std.specs.Prelude.{◌≡◌};
ghost use Rattle.ns_run_words.specs.Words as spec;

use crate::number::steps;
use crate::options::value_behind;
use crate::words::Given;

/// What is given with a word more that is the option of a pause, where the form takes it.
pub fn at_where(takes: bool, given: Given, word: &[u8]) -> Option<Given>
    ensures { result ≡ spec.at_where takes given word.now }
{
    if !takes {
        return None;
    }
    if given.at.is_some() {
        return None;
    }
    match value_behind(b"--at=", word) {
        Some(text) => with_at(given, steps(text)),
        None => None,
    }
}

fn with_at(given: Given, at: Option<u64>) -> Option<Given>
    ensures { result ≡ spec.with_at given at }
{
    match at {
        Some(n) => Some(Given {
            at: Some(n),
            ..given
        }),
        None => None,
    }
}
