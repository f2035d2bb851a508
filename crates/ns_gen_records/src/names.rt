//! The names of classes' records, which get the first numbers.

ghost use Rattle.std.specs.Prelude.{◌≡◌, map, flat_map, OnOk};
ghost use Rattle.ns_resolved.specs.Tables.{class_names};
ghost use Rattle.ns_gen_records.specs.Naming.{with_names};

use crate::declaration::{Declaration, MethodOf, SlotOf};
use ns_base::no_memory::NoMemory;
use ns_gen_draft::writer::Writer;

/// The names of the records of all classes.
pub fn put_names(writer: &mut Writer, classes: &[Declaration]) -> Result<(), NoMemory>
    ensures { OnOk result (writer.new ≡ with_names (flat_map class_names classes.now) writer.old) }
{
    for class in classes {
        put_class_names(writer, class)?;
    }
    Ok(())
}

/// The names of a class's record.
fn put_class_names(writer: &mut Writer, class: &Declaration) -> Result<(), NoMemory>
    ensures { OnOk result (writer.new ≡ with_names (class_names class.now) writer.old) }
{
    writer.name(class.name.bytes())?;
    writer.name(class.factory.bytes())?;
    writer.name(class.super_selector.bytes())?;
    put_slots(writer, class.slots.as_slice())?;
    put_methods(writer, class.methods.as_slice())?;
    put_methods(writer, class.side_methods.as_slice())?;
    Ok(())
}

fn put_slots(writer: &mut Writer, slots: &[SlotOf]) -> Result<(), NoMemory>
    ensures { OnOk result (writer.new ≡ with_names (map (λ slot. slot.name) slots.now) writer.old) }
{
    for slot in slots {
        writer.name(slot.name.bytes())?;
    }
    Ok(())
}

fn put_methods(writer: &mut Writer, methods: &[MethodOf]) -> Result<(), NoMemory>
    ensures { OnOk result (writer.new ≡ with_names (map (λ method. method.selector) methods.now) writer.old) }
{
    for method in methods {
        writer.name(method.selector.bytes())?;
    }
    Ok(())
}
