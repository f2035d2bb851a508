//! Names of files, from words.

ghost use Rattle.std.specs.Prelude.{◌≡◌, All, IfOk, IsUtf8, map, string_bytes};

use ns_base::no_memory::NoMemory;
use ns_base::text::Text;
use std::alloc::Global;

/// The names that these words are.
pub fn names_of(alloc: Global, words: &[String]) -> Result<Vec<Text>, NoMemory>
    ensures names { IfOk result (λ names. names.items ≡ map string_bytes words.now) }
    ensures text { IfOk result (λ names. All IsUtf8 names.items) }
{
    let mut names = Vec::new(alloc);
    for word in words {
        let name = word.as_str().as_bytes();
        names.push(Text::of(alloc, name)?)?;
    }
    Ok(names)
}
