//! Which selectors something can answer.

ghost use Rattle.std.specs.Prelude.{◌≡◌, ◌++◌, ◌∷◌, [], IfOk, OnOk, is_some, flat_map, map};
ghost use Rattle.std.specs.List.{list_any};
ghost use Rattle.ns_world.specs.KernelTable.{row_called};
ghost use Rattle.ns_sends.specs.Answered as spec;
ghost use Rattle.ns_sends.specs.Texts.{put_text, put_texts};

use ns_base::key::Key;
use ns_base::no_memory::NoMemory;
use ns_base::text::Text;
use ns_code::class::{ClassCode, MethodCode, SlotCode};
use ns_code::program::CodeProgram;
use ns_scope::table::Table;
use ns_world::kernel_class::KernelRow;
use ns_world::kernel_table::row_called;
use std::alloc::Global;
use std::marker::Model;

/// Code, and a table of the texts that its classes answer. A clause sees the code.
#[derive(Drop)]
pub struct Answered<'a> {
    code: &'a CodeProgram,
    texts: Table<u32>,
}

impl<'a> Model for Answered<'a> {
    ghost use Rattle.std.specs.Prelude.{◌≡◌, []};
    ghost use Rattle.ns_code.specs.declared.program.CodeProgram.{CodeProgram};
    ghost use Rattle.ns_sends.specs.Answered.{program_texts};
    ghost use Rattle.ns_sends.specs.Texts.{put_texts};

    ghost Value = { CodeProgram };

    ghost view = { λ answered. answered.code.now };

    ghost invariant = { λ answered. answered.texts ≡ put_texts [] (program_texts answered.code.now) };
}

impl Answered<'_> {
    /// What the classes of this code answer.
    pub fn of(alloc: Global, code: &CodeProgram) -> Result<Answered<'_>, NoMemory>
        ensures { IfOk result (λ answered. answered ≡ code.now) }
    {
        let texts = program_texts(alloc, code)?;
        Ok(Answered { code, texts })
    }

    /// The code.
    pub fn code(&self) -> &CodeProgram
        ensures { result.now ≡ self.now }
    {
        self.code
    }

    /// Whether something answers a selector of that text.
    #[tactic(auto, using(crate::proofs::Tabled::has_texts))]
    pub fn has(&self, text: &[u8]) -> bool
        ensures { result ≡ spec.is_answered self.now text.now }
    {
        if self.texts.look_up(text).is_some() {
            return true;
        }
        is_row(text)
    }
}

/// Whether a class of the kernel has a row of that text.
fn is_row(text: &[u8]) -> bool
    ensures { result ≡ spec.is_row text.now }
{
    is_row_of(
        &[
            KernelRow::Object,
            KernelRow::ObjectClass,
            KernelRow::ArrayClass,
            KernelRow::Class,
            KernelRow::UndefinedObject,
            KernelRow::Boolean,
            KernelRow::Integer,
            KernelRow::String,
            KernelRow::Symbol,
            KernelRow::Array,
            KernelRow::Block,
            KernelRow::Manifest,
            KernelRow::Platform,
            KernelRow::Kernel,
            KernelRow::Console,
            KernelRow::Board,
            KernelRow::Mirrors,
            KernelRow::Mirror,
            KernelRow::Message,
        ],
        text,
    )
}

/// Whether one of these classes of the kernel has.
fn is_row_of(classes: &[KernelRow], text: &[u8]) -> bool
    ensures { result ≡ list_any (λ class. is_some (row_called class text.now)) classes.now }
{
    'classes: for class in classes {
        if row_called(*class, text).is_some() {
            return true;
        }
    }
    false
}

fn program_texts(alloc: Global, code: &CodeProgram) -> Result<Table<u32>, NoMemory>
    ensures { IfOk result (λ texts. texts ≡ put_texts [] (spec.program_texts code.now)) }
{
    let mut texts = Table::new(alloc, Key::of_texts(code.names.as_slice()));
    'classes: for class in code.classes.as_slice() {
        put_class(alloc, &mut texts, code, class)?;
    }
    Ok(texts)
}

/// Puts what a class answers to other texts.
fn put_class(
    alloc: Global,
    texts: &mut Table<u32>,
    code: &CodeProgram,
    class: &ClassCode,
) -> Result<(), NoMemory>
    ensures { OnOk result (texts.new ≡ put_texts texts.old (spec.class_texts code.now class.now)) }
{
    put_text(alloc, texts, code.selector_text(class.name))?;
    put_text(alloc, texts, code.selector_text(class.factory))?;
    put_slots(alloc, texts, code, class.slots.as_slice())?;
    put_methods(alloc, texts, code, class.methods.as_slice())?;
    put_methods(alloc, texts, code, class.side_methods.as_slice())
}

fn put_text(alloc: Global, texts: &mut Table<u32>, text: &[u8]) -> Result<(), NoMemory>
    ensures { OnOk result (texts.new ≡ put_text texts.old text.now) }
{
    let text = Text::of(alloc, text)?;
    texts.put_first(text, 0)?;
    Ok(())
}

fn put_slots(
    alloc: Global,
    texts: &mut Table<u32>,
    code: &CodeProgram,
    slots: &[SlotCode],
) -> Result<(), NoMemory>
    ensures { OnOk result (texts.new ≡ put_texts texts.old (flat_map (spec.slot_texts code.now) slots.now)) }
{
    'slots: for slot in slots {
        put_slot(alloc, texts, code, *slot)?;
    }
    Ok(())
}

fn put_slot(
    alloc: Global,
    texts: &mut Table<u32>,
    code: &CodeProgram,
    slot: SlotCode,
) -> Result<(), NoMemory>
    ensures { OnOk result (texts.new ≡ put_texts texts.old (spec.slot_texts code.now slot)) }
{
    let name = code.selector_text(slot.name);
    put_text(alloc, texts, name)?;
    if slot.mutable {
        return put_setter(alloc, texts, name);
    }
    Ok(())
}

/// Puts a name with a colon behind it.
fn put_setter(alloc: Global, texts: &mut Table<u32>, name: &[u8]) -> Result<(), NoMemory>
    ensures { OnOk result (texts.new ≡ put_text texts.old (name.now ++ 58 ∷ [])) }
{
    let mut setter = Vec::with_capacity(alloc, name.len().saturating_add(1))?;
    setter.extend_from_slice(name)?;
    setter.push(b':')?;
    texts.put_first(Text::from_vec(setter), 0)?;
    Ok(())
}

fn put_methods(
    alloc: Global,
    texts: &mut Table<u32>,
    code: &CodeProgram,
    methods: &[MethodCode],
) -> Result<(), NoMemory>
    ensures { OnOk result (texts.new ≡ put_texts texts.old (map (spec.method_text code.now) methods.now)) }
{
    'methods: for method in methods {
        put_text(alloc, texts, code.selector_text(method.sel))?;
    }
    Ok(())
}
