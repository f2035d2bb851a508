//! The names of a body's locals.

ghost use Rattle.std.specs.Prelude.{◌≡◌, ◌≤◌, ◌++◌, length, IfOk};
ghost use Rattle.ns_code.specs.LocalNames.{numbered_name, numbered_names};

use ns_base::items::Items;
use ns_base::no_memory::NoMemory;
use ns_base::text::Text;
use std::alloc::Global;
use std::marker::Model;

/// The names of the locals of a body, its parameters first: the ones that code gives, or as many as there are, each made of
/// its local's number. The latter take no memory, however many bodies have them.
#[derive(Drop)]
pub struct LocalNames {
    kept: Kept,
}

#[derive(Drop)]
enum Kept {
    Given(Items<Text>),
    Numbered(u8),
}

impl Model for LocalNames {
    ghost use Rattle.std.specs.Prelude.{ℕ, List};
    ghost use Rattle.ns_code.specs.LocalNames.{names_kept};

    ghost Value = { List (List ℕ) };

    ghost view = { λ names. names_kept names.kept };
}

impl LocalNames {
    /// Names that code gives.
    pub fn given(names: Items<Text>) -> LocalNames
        ensures { result ≡ names }
    {
        LocalNames {
            kept: Kept::Given(names),
        }
    }

    /// So many names, each made of its local's number.
    pub fn numbered(count: u8) -> LocalNames
        ensures { result ≡ numbered_names count }
    {
        LocalNames {
            kept: Kept::Numbered(count),
        }
    }

    /// The names that are given, and how many are made of numbers; where there are any of the first kind, there are none of the second.
    pub fn parts(&self) -> (&[Text], u8)
        ensures names { self.now ≡ result.0.now ++ numbered_names result.1 }
        ensures one { 1 ≤ length result.0.now → result.1 ≡ 0 }
    {
        match &self.kept {
            Kept::Given(names) => (names.as_slice(), 0),
            Kept::Numbered(count) => (&[], *count),
        }
    }
}

/// So many names, each made of its local's number: `t0`, `t1` and so on.
#[tactic(auto, using(crate::proofs::LocalNames::numbered_names_more))]
pub fn numbered_texts(alloc: Global, count: u8) -> Result<Vec<Text>, NoMemory>
    ensures { IfOk result (λ names. names.items ≡ numbered_names count) }
{
    let mut names = Vec::new(alloc);
    'names: for number in 0..count {
        names.push(numbered_text(alloc, number)?)?;
    }
    Ok(names)
}

fn numbered_text(alloc: Global, number: u8) -> Result<Text, NoMemory>
    ensures { IfOk result (λ name. name ≡ numbered_name number) }
{
    let digits = number.to_string(alloc)?;
    let mut name = Vec::new(alloc);
    name.push(b't')?;
    name.extend_from_slice(digits.as_bytes())?;
    Ok(Text::from_vec(name))
}
