//! The options of checks, of listings and of builds, and that for JSON.

ghost use Rattle.std.specs.Prelude.{◌≡◌, Some, codes, map, option_map, string_bytes};
ghost use Rattle.ns_run_words.specs.Options.{value_behind as value_behind_lem};
ghost use Rattle.ns_run_words.specs.Own as spec;

use crate::form::Form;
use crate::options::value_behind;
use crate::words::{Given, is_file_name};

/// What is given with a word more that is one of these options, where the form takes it.
pub fn own_option(form: Form, given: Given, word: &[u8]) -> Option<Given>
    ensures { result ≡ spec.own_option form given word.now }
{
    if let Some(more) = check_where(form.checks, given, word) {
        return Some(more);
    }
    if let Some(more) = listing_where(form.members, given, word) {
        return Some(more);
    }
    if let Some(more) = to_where(form.to, given, word) {
        return Some(more);
    }
    json_where(form.json, given, word)
}

/// What is given with a word more that is an option of checks, where the form takes these.
fn check_where(takes: bool, given: Given, word: &[u8]) -> Option<Given>
    ensures { result ≡ spec.check_where takes given word.now }
{
    if !takes {
        return None;
    }
    if word == b"--all".as_slice() {
        return with_all(given);
    }
    if word == b"--sends".as_slice() {
        return with_sends(given);
    }
    None
}

fn with_all(given: Given) -> Option<Given>
    ensures { result ≡ spec.with_all given }
{
    if given.all {
        None
    } else {
        Some(Given { all: true, ..given })
    }
}

fn with_sends(given: Given) -> Option<Given>
    ensures { result ≡ spec.with_sends given }
{
    if given.sends {
        None
    } else {
        Some(Given {
            sends: true,
            ..given
        })
    }
}

/// What is given with a word more that is an option of listings, where the form takes it.
fn listing_where(takes: bool, given: Given, word: &[u8]) -> Option<Given>
    ensures { result ≡ spec.listing_where takes given word.now }
{
    if !takes {
        return None;
    }
    if word == b"--members".as_slice() {
        return with_members(given);
    }
    None
}

fn with_members(given: Given) -> Option<Given>
    ensures { result ≡ spec.with_members given }
{
    if given.members {
        None
    } else {
        Some(Given {
            members: true,
            ..given
        })
    }
}

/// What is given with a word more that names the image of a build, where the form takes it.
fn to_where(takes: bool, given: Given, word: &[u8]) -> Option<Given>
    ensures { result ≡ spec.to_where takes given word.now }
{
    if !takes {
        return None;
    }
    match value_behind(b"--to=", word) {
        Some(name) => with_to(given, name),
        None => None,
    }
}

/// What is given with the name of the image, where none was named before.
fn with_to(given: Given, name: &[u8]) -> Option<Given>
    ensures { result ≡ spec.with_to given (Some name.now) }
{
    if given.to {
        return None;
    }
    if is_file_name(name) {
        Some(Given { to: true, ..given })
    } else {
        None
    }
}

/// What is given with a word more that asks for JSON, where the form takes that.
fn json_where(takes: bool, given: Given, word: &[u8]) -> Option<Given>
    ensures { result ≡ spec.json_where takes given word.now }
{
    if takes && word == b"--json".as_slice() {
        with_json(given)
    } else {
        None
    }
}

fn with_json(given: Given) -> Option<Given>
    ensures { result ≡ spec.with_json given }
{
    if given.json {
        None
    } else {
        Some(Given {
            json: true,
            ..given
        })
    }
}

/// The image that options name, if they name one.
pub fn image_among(options: &[String]) -> Option<&str>
    ensures { option_map (λ name. name.now) result ≡ spec.image_among (map string_bytes options.now) }
{
    'options: for option in options {
        let name = image_in(option.as_str());
        if name.is_some() {
            return name;
        }
    }
    None
}

/// The image that a word names which is the option of the image.
fn image_in(option: &str) -> Option<&str>
    ensures { option_map (λ name. name.now) result ≡ value_behind_lem (codes "--to=") option.now }
{
    option.strip_prefix("--to=")
}

/// The fewest names behind what is given: where an option names the image, it stands for one of them.
pub fn least_of(form: Form, given: Given) -> u64
    ensures { result ≡ spec.least_of form given }
{
    if form.to && given.to {
        form.least.saturating_sub(1)
    } else {
        form.least
    }
}

/// The most names behind what is given.
pub fn most_of(form: Form, given: Given) -> u64
    ensures { result ≡ spec.most_of form given }
{
    if form.to && given.to {
        form.most.saturating_sub(1)
    } else {
        form.most
    }
}
