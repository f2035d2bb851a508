//! The text and the arity of a selector.

ghost use Rattle.std.specs.Prelude.{◌≡◌, ◌==◌, count_by};
ghost use Rattle.ns_code.specs.Selector.{selector_text, selector_arity, text_arity, own_text_at};

use crate::own::Own;
use crate::program::CodeProgram;
use ns_base::selector::Sel;
use ns_base::spelling::begins_name;

impl CodeProgram {
    /// The text of a selector: a name of the code, or one of the machine's own, whose numbers
    /// follow the names. It is empty for any other number.
    pub fn selector_text(&self, sel: Sel) -> &[u8]
        ensures { result.now ≡ selector_text self.now sel.0 }
    {
        let names = self.names.as_slice();
        let number = sel.0 as usize;
        if number < names.len() {
            return names[number].bytes();
        }
        own_text_at(number - names.len())
    }

    /// How many arguments a selector takes.
    pub fn selector_arity(&self, sel: Sel) -> usize
        ensures { result ≡ selector_arity self.now sel.0 }
    {
        text_arity(self.selector_text(sel))
    }
}

/// The text of the own selector of that place, empty past the last.
pub fn own_text_at(place: usize) -> &'static [u8]
    ensures { result.now ≡ own_text_at place }
{
    match place {
        0 => Own::PackageUsing.text(),
        1 => Own::MainArgs.text(),
        2 => Own::DoesNotUnderstand.text(),
        _ => b"".as_slice(),
    }
}

/// How many arguments a selector of this text takes: none for an identifier, one for an
/// operator, and one for each colon of a text of keys.
pub fn text_arity(text: &[u8]) -> usize
    ensures { result ≡ text_arity text.now }
{
    match text {
        [] => 0,
        [first, ..] => { if begins_name(*first) { colons(text) } else { 1 } }
    }
}

fn colons(text: &[u8]) -> usize
    ensures { result ≡ count_by (λ b. b == 58) text.now }
{
    text.iter().filter(|byte| **byte == b':').count()
}
