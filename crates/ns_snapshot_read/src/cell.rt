//! Cells, each read onto those before it, so that all share their memory.

ghost use Rattle.std.specs.Prelude.{◌≡◌, [], OnOk};
ghost use Rattle.ns_image.specs.Read as fields;
ghost use Rattle.ns_image.specs.Reads.{ReadsAs, ReadsBytes};
ghost use Rattle.ns_snapshot.specs.Fields as parts;
ghost use Rattle.ns_snapshot.specs.Reading as spec;
ghost use Rattle.ns_snapshot_read.specs.Onto as own;
ghost use Rattle.ns_snapshot_read.specs.Onto.{cell_onto};

use crate::field::double;
use crate::value::value;
use crate::variant::facet_kind;
use ns_base::text::Text;
use ns_frozen::pools::{BlockData, NewData};
use ns_frozen::stored::{Cells, CellsMaker};
use ns_image::fault::Fault;
use ns_image::read::input::Input;
use std::alloc::Global;

/// Cells behind their count, which is bad above the most.
#[tactic(auto, unfolding(ns_snapshot::specs::Reading::cells))]
pub fn cells(alloc: Global, input: &mut Input<'_>, most: u64) -> Result<Cells, Fault>
    ensures { ReadsBytes (spec.cells most input.old.rest.now) result input.new.rest.now }
{
    let count = cell_count(input, most)?;
    so_many(alloc, input, count)
}

/// A number of four bytes, which is bad above the most.
fn cell_count(input: &mut Input<'_>, most: u64) -> Result<u32, Fault>
    ensures { ReadsBytes (fields.word_up_to most input.old.rest.now) result input.new.rest.now }
{
    let left = input.rest.len();
    let count = input.word()?;
    if u64::from(count) > most {
        return Err(Fault::Bad(left));
    }
    Ok(count)
}

/// So many cells.
fn so_many(alloc: Global, input: &mut Input<'_>, count: u32) -> Result<Cells, Fault>
    ensures { ReadsBytes (fields.times count spec.cell input.old.rest.now) result input.new.rest.now }
{
    let mut made = CellsMaker::new(alloc);
    'cells: for _ in 0..count {
        cell(input, &mut made)?;
    }
    Ok(Cells::of(made))
}

/// A cell.
#[tactic(auto, unfolding(ns_snapshot::specs::Fields::one_of))]
fn cell(input: &mut Input<'_>, made: &mut CellsMaker) -> Result<(), Fault>
    requires { made.old.words ≡ [] }
    ensures { ReadsAs (λ _. made.new) (cell_onto made.old spec.cell input.old.rest.now) result input.new.rest.now }
{
    let left = input.rest.len();
    match input.byte()? {
        0 => object(input, made),
        1 => class(input, made),
        2 => block(input, made),
        3 => environment(input, made),
        4 => array(input, made),
        5 => literal(input, made),
        6 => facet(input, made),
        7 => mirror(input, made),
        8 => message(input, made),
        9..=255 => Err(Fault::Bad(left)),
    }
}

#[tactic(auto, unfolding(ns_snapshot::specs::Reading::object))]
fn object(input: &mut Input<'_>, made: &mut CellsMaker) -> Result<(), Fault>
    requires { made.old.words ≡ [] }
    ensures { ReadsAs (λ _. made.new) (cell_onto made.old spec.object input.old.rest.now) result input.new.rest.now }
{
    let class = input.word()?;
    words(input, made)?;
    made.put(NewData::Object(class))?;
    Ok(())
}

#[tactic(auto, unfolding(ns_snapshot::specs::Reading::class))]
fn class(input: &mut Input<'_>, made: &mut CellsMaker) -> Result<(), Fault>
    ensures { ReadsAs (λ _. made.new) (cell_onto made.old spec.class input.old.rest.now) result input.new.rest.now }
{
    let decl = input.word()?;
    let encl = value(input)?;
    let holder = value(input)?;
    let over = value(input)?;
    made.put(NewData::Class {
        decl,
        encl,
        holder,
        over,
    })?;
    Ok(())
}

#[tactic(auto, unfolding(ns_snapshot::specs::Reading::block))]
fn block(input: &mut Input<'_>, made: &mut CellsMaker) -> Result<(), Fault>
    ensures { ReadsAs (λ _. made.new) (cell_onto made.old spec.block input.old.rest.now) result input.new.rest.now }
{
    let body = input.word()?;
    let env = value(input)?;
    let home = double(input)?;
    let receiver = value(input)?;
    let holder = input.word()?;
    made.put(NewData::Block(BlockData {
        body,
        env,
        receiver,
        holder,
        home,
    }))?;
    Ok(())
}

#[tactic(auto, unfolding(ns_snapshot::specs::Reading::environment))]
fn environment(input: &mut Input<'_>, made: &mut CellsMaker) -> Result<(), Fault>
    requires { made.old.words ≡ [] }
    ensures { ReadsAs (λ _. made.new) (cell_onto made.old spec.environment input.old.rest.now) result input.new.rest.now }
{
    let parent = value(input)?;
    words(input, made)?;
    made.put(NewData::Environment(parent))?;
    Ok(())
}

fn array(input: &mut Input<'_>, made: &mut CellsMaker) -> Result<(), Fault>
    requires { made.old.words ≡ [] }
    ensures { ReadsAs (λ _. made.new) (cell_onto made.old own.array input.old.rest.now) result input.new.rest.now }
{
    words(input, made)?;
    made.put(NewData::Array)?;
    Ok(())
}

fn literal(input: &mut Input<'_>, made: &mut CellsMaker) -> Result<(), Fault>
    ensures { ReadsAs (λ _. made.new) (cell_onto made.old own.literal input.old.rest.now) result input.new.rest.now }
{
    let bytes = input.text()?;
    made.put(NewData::Text(bytes))?;
    Ok(())
}

fn facet(input: &mut Input<'_>, made: &mut CellsMaker) -> Result<(), Fault>
    ensures { ReadsAs (λ _. made.new) (cell_onto made.old own.facet input.old.rest.now) result input.new.rest.now }
{
    let kind = facet_kind(input)?;
    made.put(NewData::Facet(kind))?;
    Ok(())
}

fn mirror(input: &mut Input<'_>, made: &mut CellsMaker) -> Result<(), Fault>
    ensures { ReadsAs (λ _. made.new) (cell_onto made.old own.mirror input.old.rest.now) result input.new.rest.now }
{
    let mirrored = value(input)?;
    made.put(NewData::Mirror(mirrored))?;
    Ok(())
}

#[tactic(auto, unfolding(ns_snapshot::specs::Reading::message))]
fn message(input: &mut Input<'_>, made: &mut CellsMaker) -> Result<(), Fault>
    ensures { ReadsAs (λ _. made.new) (cell_onto made.old spec.message input.old.rest.now) result input.new.rest.now }
{
    let sel = input.sel()?;
    let args = value(input)?;
    made.put(NewData::Message { sel, args })?;
    Ok(())
}

/// Values behind their count, as the words of the next cell.
#[tactic(auto, unfolding(ns_snapshot::specs::Fields::counted))]
fn words(input: &mut Input<'_>, made: &mut CellsMaker) -> Result<(), Fault>
    requires { made.old.words ≡ [] }
    ensures words { ReadsAs (λ _. made.new.words) (parts.values input.old.rest.now) result input.new.rest.now }
    ensures cells { OnOk result (made.new.cells ≡ made.old.cells) }
{
    let count = input.word()?;
    so_many_words(input, made, count)
}

/// So many values, as the words of the next cell.
fn so_many_words(input: &mut Input<'_>, made: &mut CellsMaker, count: u32) -> Result<(), Fault>
    requires { made.old.words ≡ [] }
    ensures words { ReadsAs (λ _. made.new.words) (fields.times count parts.value input.old.rest.now) result input.new.rest.now }
    ensures cells { OnOk result (made.new.cells ≡ made.old.cells) }
{
    'words: for _ in 0..count {
        let read = value(input)?;
        made.word(read)?;
    }
    Ok(())
}

/// A text behind its length, in memory of its own.
pub fn text(alloc: Global, input: &mut Input<'_>) -> Result<Text, Fault>
    ensures { ReadsBytes (fields.text input.old.rest.now) result input.new.rest.now }
{
    let bytes = input.text()?;
    let text = Text::of(alloc, bytes)?;
    Ok(text)
}
