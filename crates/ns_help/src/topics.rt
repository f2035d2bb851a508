//! What there is a text on: the words of the commands, and the names of causes.

ghost use Rattle.std.specs.Prelude.{◌≡◌, option_map};
ghost use Rattle.ns_help.specs.Topics as spec;

use crate::commands::commands_text;
use crate::errors::errors_text;
use crate::images::images_text;
use crate::limits::limits_text;
use crate::programs::programs_text;
use crate::sources::sources_text;

/// The text on a word, if there is one.
pub fn text_of(word: &[u8]) -> Option<&'static str>
    ensures { option_map (λ text. text.now) result ≡ spec.text_of word.now }
{
    if let Some(text) = commands_text(word) {
        return Some(text);
    }
    if let Some(text) = sources_text(word) {
        return Some(text);
    }
    if let Some(text) = programs_text(word) {
        return Some(text);
    }
    if let Some(text) = errors_text(word) {
        return Some(text);
    }
    if let Some(text) = limits_text(word) {
        return Some(text);
    }
    images_text(word)
}
