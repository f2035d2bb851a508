//! Texts, each behind its length.

ghost use Rattle.std.specs.Prelude.{◌≡◌, IfOk};
ghost use Rattle.ns_image.specs.Read as fields;
ghost use Rattle.ns_image.specs.Reading as spec;
ghost use Rattle.ns_image.specs.Reads.{ReadsBytes, ReadsAs};

use crate::fault::Fault;
use crate::read::format::Format;
use crate::read::input::Input;
use crate::spelling::{is_file_name, is_local_name};
use ns_base::items::Items;
use ns_base::key::{FEW, Key, Origin};
use ns_base::spelled::is_selector;
use ns_base::text::Text;
use ns_base::text_set::TextSet;
use ns_code::program::MOST_NAMES;
use std::alloc::Global;

/// A literal text, which may be any bytes.
pub struct Literal;

impl Format for Literal {
    type Value = Text;

    ghost reader = { λ _. fields.text };

    fn read(&self, alloc: Global, input: &mut Input<'_>) -> Result<Text, Fault> {
        let text = input.text()?;
        let text = Text::of(alloc, text)?;
        Ok(text)
    }
}

/// A file's name.
pub struct FileName;

impl Format for FileName {
    type Value = Text;

    ghost reader = { λ _. spec.file_name };

    fn read(&self, alloc: Global, input: &mut Input<'_>) -> Result<Text, Fault> {
        let left = input.rest.len();
        let name = input.text()?;
        if !is_file_name(name) {
            return Err(Fault::Bad(left));
        }
        let name = Text::of(alloc, name)?;
        Ok(name)
    }
}

/// A local's name.
pub struct LocalName;

impl Format for LocalName {
    type Value = Text;

    ghost reader = { λ _. spec.local_name };

    fn read(&self, alloc: Global, input: &mut Input<'_>) -> Result<Text, Fault> {
        let left = input.rest.len();
        let name = input.text()?;
        if !is_local_name(name) {
            return Err(Fault::Bad(left));
        }
        let name = Text::of(alloc, name)?;
        Ok(name)
    }
}

/// A name that no earlier one equals, and which then is one of the earlier ones.
fn name<'a>(alloc: Global, input: &mut Input<'a>, earlier: &mut TextSet) -> Result<&'a [u8], Fault>
    ensures reads { ReadsAs (λ name. name.now) (spec.name_after earlier.old input.old.rest.now) result input.new.rest.now }
    ensures earlier { IfOk result (λ name. earlier.new ≡ spec.with_name earlier.old name.now) }
{
    let left = input.rest.len();
    let name = input.text()?;
    if !is_selector(name) {
        return Err(Fault::Bad(left));
    }
    if earlier.find(name).is_some() {
        return Err(Fault::Bad(left));
    }
    earlier.add(Text::of(alloc, name)?)?;
    Ok(name)
}

/// Names behind their count: each has a selector's form, and no two are equal.
pub fn names(alloc: Global, input: &mut Input<'_>) -> Result<Items<Text>, Fault>
    ensures { ReadsBytes (spec.names input.old.rest.now) result input.new.rest.now }
{
    let count = input.word_up_to(MOST_NAMES as u32)?;
    let mut earlier = TextSet::new(alloc, key_of(input.rest, count));
    names_of(alloc, input, &mut earlier, count)
}

/// The key of a table of so many names, with which these bytes begin.
fn key_of(bytes: &[u8], count: u32) -> Key {
    if count as usize <= FEW {
        return Key::of_few();
    }
    let mut names = Input { rest: bytes };
    let mut origin = Origin::new();
    'names: for _ in 0..count {
        match names.text() {
            Ok(name) => origin.add(name),
            Err(_) => break,
        }
    }
    origin.key()
}

/// So many names behind earlier ones.
fn names_of(
    alloc: Global,
    input: &mut Input<'_>,
    earlier: &mut TextSet,
    count: u32,
) -> Result<Items<Text>, Fault>
    ensures { ReadsBytes (fields.chained spec.name_after spec.with_name count earlier.old input.old.rest.now) result input.new.rest.now }
{
    let mut names = Vec::new(alloc);
    'names: for _ in 0..count {
        let text = name(alloc, input, earlier)?;
        let text = Text::of(alloc, text)?;
        names.push(text)?;
    }
    Ok(Items::from_vec(names))
}
