//! Laws over the definitions of words. Each is the contract of a function that does nothing.

ghost use Rattle.std.specs.Prelude.{◌≡◌, ℕ, List};
ghost use Rattle.ns_base.specs.Limits.{InRange};
ghost use Rattle.ns_run_words.specs.Forms.{IsForm, IsReadingOf};
ghost use Rattle.ns_run_words.specs.Words.{CommandLine, bad, first_bad, limits_of, reading_of, says};

/// The words of a form are read as what they spell.
pub fn forms_are_read()
    ensures { (words : List (List ℕ)) (line : CommandLine) → IsForm words line → reading_of words ≡ says line }
{}

/// What is read of words is what they spell, or the first bad word.
pub fn first_bad_word()
    ensures { (words : List (List ℕ)) → IsReadingOf words (reading_of words) }
{}

/// Where a word that is no text stands behind these, no form goes on with it, and the first bad word
/// is this.
pub fn first_bad_word_of_a_cut_line()
    ensures { (words : List (List ℕ)) → IsReadingOf words (bad (first_bad words)) }
{}

/// The limits of a form are in their ranges.
pub fn limits_are_in_range()
    ensures { (words : List (List ℕ)) (line : CommandLine) → IsForm words line → InRange (limits_of line.given) }
{}
