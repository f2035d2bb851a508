//! Letters: how they are made and copied.

ghost use Rattle.std.specs.Prelude.{◌≡◌, IfOk};
ghost use Rattle.ns_actors.specs.Turn.{letters_to};
ghost use Rattle.ns_actors_calls.specs.Letters.{takes_one};

use ns_actors::letter::Letter;
use ns_base::no_memory::NoMemory;
use ns_base::spelled::is_selector;
use ns_base::text::Text;
use ns_code::selector::text_arity;
use ns_facets::board::Plain;
use std::alloc::Global;

/// A letter with that selector, in memory of its own.
pub fn letter_of(
    alloc: Global,
    from: u32,
    to: u32,
    sel: &[u8],
    arg: Plain,
) -> Result<Letter, NoMemory>
    ensures { IfOk result (λ letter. letter ≡ record { from = from; to = to; sel = sel.now; arg = arg }) }
{
    let sel = Text::of(alloc, sel)?;
    Ok(Letter { from, to, sel, arg })
}

/// The same letter, in memory of its own.
fn copy_of(alloc: Global, letter: &Letter) -> Result<Letter, NoMemory>
    ensures { IfOk result (λ copy. copy ≡ letter.now) }
{
    letter_of(
        alloc,
        letter.from,
        letter.to,
        letter.sel.bytes(),
        letter.arg,
    )
}

/// Copies of those letters that are to that number.
pub fn letters_to(alloc: Global, number: u32, letters: &[Letter]) -> Result<Vec<Letter>, NoMemory>
    ensures { IfOk result (λ copies. copies.items ≡ letters_to number letters.now) }
{
    let mut copies = Vec::new(alloc);
    'letters: for letter in letters {
        if letter.to == number {
            copies.push(copy_of(alloc, letter)?)?;
        }
    }
    Ok(copies)
}

/// Whether a text is a selector of one argument.
pub fn takes_one(text: &[u8]) -> bool
    ensures { result ≡ takes_one text.now }
{
    is_selector(text) && text_arity(text) == 1
}
