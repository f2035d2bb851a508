//! The lines of classes and their members.

ghost use Rattle.std.specs.Prelude.{◌≡◌, ◌++◌, OnOk, codes, flat_map};
ghost use Rattle.ns_image_list.specs.Output.{after};
ghost use Rattle.ns_image_list.specs.Listing.{numbered};
ghost use Rattle.ns_image_members.specs.Members as spec;

use ns_base::no_memory::NoMemory;
use ns_code::class::{ClassCode, MethodCode, NestedCode, SlotCode};
use ns_code::kinds::{PROTECTED, PUBLIC};
use ns_image_list::output::Output;
use ns_image_list::source::Source;

pub fn put_classes(out: &mut Output, source: &Source<'_>) -> Result<(), NoMemory>
    ensures { OnOk result (out.new ≡ after out.old (numbered (spec.class_lines source.now) 0 source.now.classes)) }
{
    'classes: for (place, class) in source.classes().iter().enumerate() {
        put_class(out, source, place, class)?;
    }
    Ok(())
}

fn put_class(
    out: &mut Output,
    source: &Source<'_>,
    place: usize,
    class: &ClassCode,
) -> Result<(), NoMemory>
    ensures { OnOk result (out.new ≡ after out.old (spec.class_lines source.now place class.now)) }
{
    put_class_line(out, source, place, class)?;
    put_clause(out, class.clause)?;
    put_init(out, class.init)?;
    put_members(out, source, class)
}

fn put_class_line(
    out: &mut Output,
    source: &Source<'_>,
    place: usize,
    class: &ClassCode,
) -> Result<(), NoMemory>
    ensures { OnOk result (out.new ≡ after out.old (spec.class_line source.now place class.now)) }
{
    out.put_counted(b"class", place as u64)?;
    out.put_behind_blank(source.name(class.name))?;
    put_outer(out, source, class.outer)?;
    put_class_messages(out, source, class)
}

/// The class around, behind its word.
fn put_outer(out: &mut Output, source: &Source<'_>, outer: Option<u32>) -> Result<(), NoMemory>
    ensures { OnOk result (out.new ≡ after out.old (codes " outer" ++ spec.outer_shown source.now outer)) }
{
    out.put(b" outer")?;
    match outer {
        None => out.put(b" none"),
        Some(class) => put_class_number(out, source, class),
    }
}

/// The message to the superclass and the factory, and the line's end.
fn put_class_messages(
    out: &mut Output,
    source: &Source<'_>,
    class: &ClassCode,
) -> Result<(), NoMemory>
    ensures { OnOk result (out.new ≡ after out.old (spec.class_messages source.now class.now)) }
{
    out.put(b" super")?;
    out.put_behind_blank(source.name(class.super_sel))?;
    out.put(b" factory")?;
    out.put_behind_blank(source.name(class.factory))?;
    out.end_line()
}

/// A class by its number, behind a blank.
fn put_class_number(out: &mut Output, source: &Source<'_>, class: u32) -> Result<(), NoMemory>
    ensures { OnOk result (out.new ≡ after out.old (spec.class_number source.now class)) }
{
    if (class as usize) < source.classes().len() {
        return out.put_number(u64::from(class));
    }
    out.put(b" ?")
}

/// The name of a class by its number, behind a blank.
fn put_class_name(out: &mut Output, source: &Source<'_>, class: u32) -> Result<(), NoMemory>
    ensures { OnOk result (out.new ≡ after out.old (spec.class_name source.now class)) }
{
    match source.classes().get(class as usize) {
        None => out.put(b" ?"),
        Some(class) => out.put_behind_blank(source.name(class.name)),
    }
}

fn put_clause(out: &mut Output, clause: Option<u32>) -> Result<(), NoMemory>
    ensures { OnOk result (out.new ≡ after out.old (spec.clause_lines clause)) }
{
    match clause {
        None => Ok(()),
        Some(body) => put_numbered_line(out, b"  clause body", body),
    }
}

fn put_init(out: &mut Output, init: u32) -> Result<(), NoMemory>
    ensures { OnOk result (out.new ≡ after out.old (spec.init_line init)) }
{
    put_numbered_line(out, b"  init body", init)
}

/// A word, a number behind a blank, and the line's end.
fn put_numbered_line(out: &mut Output, word: &[u8], number: u32) -> Result<(), NoMemory>
    ensures { OnOk result (out.new ≡ after out.old (spec.numbered_line word.now number)) }
{
    out.put_counted(word, u64::from(number))?;
    out.end_line()
}

fn put_members(out: &mut Output, source: &Source<'_>, class: &ClassCode) -> Result<(), NoMemory>
    ensures { OnOk result (out.new ≡ after out.old (spec.member_lines source.now class.now)) }
{
    put_slots(out, source, class.slots.as_slice())?;
    put_nested(out, source, class.nested.as_slice())?;
    put_methods(out, source, b" method", class.methods.as_slice())?;
    put_methods(out, source, b" side", class.side_methods.as_slice())
}

fn put_slots(out: &mut Output, source: &Source<'_>, slots: &[SlotCode]) -> Result<(), NoMemory>
    ensures { OnOk result (out.new ≡ after out.old (flat_map (spec.slot_line source.now) slots.now)) }
{
    'slots: for slot in slots {
        put_slot(out, source, *slot)?;
    }
    Ok(())
}

fn put_slot(out: &mut Output, source: &Source<'_>, slot: SlotCode) -> Result<(), NoMemory>
    ensures { OnOk result (out.new ≡ after out.old (spec.slot_line source.now slot)) }
{
    out.put(access_shown(slot.access))?;
    out.put(b" slot")?;
    out.put_behind_blank(source.name(slot.name))?;
    out.put(setting_shown(slot.mutable))?;
    out.end_line()
}

fn setting_shown(mutable: bool) -> &'static [u8]
    ensures { result.now ≡ spec.setting_shown mutable }
{
    if mutable {
        return b" mutable".as_slice();
    }
    b" fixed".as_slice()
}

fn access_shown(access: u8) -> &'static [u8]
    ensures { result.now ≡ spec.access_shown access }
{
    match access {
        PUBLIC => b"  public".as_slice(),
        PROTECTED => b"  protected".as_slice(),
        _ => b"  private".as_slice(),
    }
}

fn put_nested(out: &mut Output, source: &Source<'_>, nested: &[NestedCode]) -> Result<(), NoMemory>
    ensures { OnOk result (out.new ≡ after out.old (flat_map (spec.nested_line source.now) nested.now)) }
{
    'nested: for one in nested {
        put_one_nested(out, source, *one)?;
    }
    Ok(())
}

fn put_one_nested(out: &mut Output, source: &Source<'_>, nested: NestedCode) -> Result<(), NoMemory>
    ensures { OnOk result (out.new ≡ after out.old (spec.nested_line source.now nested)) }
{
    out.put(access_shown(nested.access))?;
    out.put(b" class")?;
    put_class_name(out, source, nested.class)?;
    out.put(b" class")?;
    put_class_number(out, source, nested.class)?;
    out.end_line()
}

fn put_methods(
    out: &mut Output,
    source: &Source<'_>,
    side: &[u8],
    methods: &[MethodCode],
) -> Result<(), NoMemory>
    ensures { OnOk result (out.new ≡ after out.old (flat_map (spec.method_line source.now side.now) methods.now)) }
{
    'methods: for method in methods {
        put_method(out, source, side, *method)?;
    }
    Ok(())
}

fn put_method(
    out: &mut Output,
    source: &Source<'_>,
    side: &[u8],
    method: MethodCode,
) -> Result<(), NoMemory>
    ensures { OnOk result (out.new ≡ after out.old (spec.method_line source.now side.now method)) }
{
    out.put(access_shown(method.access))?;
    out.put(side)?;
    out.put_behind_blank(source.name(method.sel))?;
    put_numbered_line(out, b" body", method.body)
}
