//! Class records.

ghost use Rattle.ns_image.specs.Reading as spec;
ghost use Rattle.ns_image.specs.Reads.{ReadsBytes, ReadsAs};

use crate::fault::Fault;
use crate::read::format::{Format, times};
use crate::read::input::Input;
use ns_base::items::Items;
use ns_base::selector::Sel;
use ns_code::class::{ClassCode, MethodCode, NestedCode, SlotCode};
use ns_code::kinds::PRIVATE;
use std::alloc::Global;

/// A slot of a class.
struct Slot;

impl Format for Slot {
    type Value = SlotCode;

    ghost reader = { λ _. spec.slot };

    #[tactic(auto, unfolding(crate::specs::Reading::slot))]
    fn read(&self, _alloc: Global, input: &mut Input<'_>) -> Result<SlotCode, Fault> {
        let name = input.sel()?;
        let access = input.byte_up_to(PRIVATE)?;
        let mutable = input.flag()?;
        Ok(SlotCode {
            name,
            access,
            mutable,
        })
    }
}

/// A class within a class.
struct Nested;

impl Format for Nested {
    type Value = NestedCode;

    ghost reader = { λ _. spec.nested };

    #[tactic(auto, unfolding(crate::specs::Reading::nested))]
    fn read(&self, _alloc: Global, input: &mut Input<'_>) -> Result<NestedCode, Fault> {
        let class = input.word()?;
        let access = input.byte_up_to(PRIVATE)?;
        Ok(NestedCode { class, access })
    }
}

/// A method of either side.
struct Method;

impl Format for Method {
    type Value = MethodCode;

    ghost reader = { λ _. spec.method };

    #[tactic(auto, unfolding(crate::specs::Reading::method))]
    fn read(&self, _alloc: Global, input: &mut Input<'_>) -> Result<MethodCode, Fault> {
        let sel = input.sel()?;
        let access = input.byte_up_to(PRIVATE)?;
        let body = input.word()?;
        Ok(MethodCode { sel, access, body })
    }
}

/// Items behind their count of two bytes.
fn counted<F: Format>(
    alloc: Global,
    input: &mut Input<'_>,
    format: &F,
) -> Result<Items<F::Value>, Fault>
    ensures { ReadsBytes (spec.counted_half (F.reader format.now) input.old.rest.now) result input.new.rest.now }
{
    let count = input.half()?;
    times(alloc, input, format, u32::from(count))
}

/// A class record.
pub struct Class;

impl Format for Class {
    type Value = ClassCode;

    ghost reader = { λ _. spec.class };

    #[tactic(auto, unfolding(crate::specs::Reading::class))]
    fn read(&self, alloc: Global, input: &mut Input<'_>) -> Result<ClassCode, Fault> {
        let name = input.sel()?;
        let outer = input.reference()?;
        let factory = input.sel()?;
        let params = input.byte()?;
        class_from_clause(alloc, input, name, outer, factory, params)
    }
}

/// What follows the parameters of a class record.
#[tactic(auto, unfolding(crate::specs::Reading::class_from_clause))]
fn class_from_clause(
    alloc: Global,
    input: &mut Input<'_>,
    name: Sel,
    outer: Option<u32>,
    factory: Sel,
    params: u8,
) -> Result<ClassCode, Fault>
    ensures { ReadsBytes (spec.class_from_clause name outer factory params input.old.rest.now) result input.new.rest.now }
{
    let clause = input.reference()?;
    let init = input.word()?;
    let super_sel = input.sel()?;
    let mut class = ClassCode {
        name,
        outer,
        factory,
        params,
        clause,
        init,
        super_sel,
        slots: Items::from_vec(Vec::new(alloc)),
        nested: Items::from_vec(Vec::new(alloc)),
        methods: Items::from_vec(Vec::new(alloc)),
        side_methods: Items::from_vec(Vec::new(alloc)),
    };
    match read_members(alloc, input, &mut class) {
        Ok(()) => Ok(class),
        Err(fault) => {
            drop(class);
            Err(fault)
        }
    }
}

/// Reads the members into a class record.
#[tactic(auto, unfolding(crate::specs::Reading::with_members))]
fn read_members(alloc: Global, input: &mut Input<'_>, class: &mut ClassCode) -> Result<(), Fault>
    ensures { ReadsAs (λ _. class.new) (spec.with_members class.old input.old.rest.now) result input.new.rest.now }
{
    class.slots = counted(alloc, input, &Slot)?;
    class.nested = counted(alloc, input, &Nested)?;
    read_methods(alloc, input, class)
}

/// Reads the methods of both sides into a class record.
#[tactic(auto, unfolding(crate::specs::Reading::with_methods))]
fn read_methods(alloc: Global, input: &mut Input<'_>, class: &mut ClassCode) -> Result<(), Fault>
    ensures { ReadsAs (λ _. class.new) (spec.with_methods class.old input.old.rest.now) result input.new.rest.now }
{
    class.methods = counted(alloc, input, &Method)?;
    class.side_methods = counted(alloc, input, &Method)?;
    Ok(())
}
