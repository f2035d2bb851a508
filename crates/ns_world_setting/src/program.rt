//! A small program, on which lookups and the kernel's rows are tried. The definitions of the same names say what it
//! holds.

ghost use Rattle.std.specs.Prelude.{◌≡◌, map, IfOk};
ghost use Rattle.ns_code.specs.Sample as sample;
ghost use Rattle.ns_world_setting.specs.Program as spec;

use ns_base::items::Items;
use ns_base::no_memory::NoMemory;
use ns_base::selector::Sel;
use ns_base::text::Text;
use ns_code::body::BodyCode;
use ns_code::class::{ClassCode, MethodCode, NestedCode, SlotCode};
use ns_code::classes::Classes;
use ns_code::instructions::Instructions;
use ns_code::local_names::LocalNames;
use ns_code::names::Names;
use ns_code::program::CodeProgram;
use std::alloc::Global;

/// The program.
pub fn program_code(alloc: Global) -> Result<CodeProgram, NoMemory>
    ensures { IfOk result (λ code. code ≡ spec.program_code) }
{
    let names = names(alloc)?;
    let classes = classes(alloc)?;
    let bodies = bodies(alloc)?;
    Ok(CodeProgram {
        files: Items::from_vec(Vec::new(alloc)),
        names: Names::of(alloc, names)?,
        texts: Items::from_vec(Vec::new(alloc)),
        classes,
        bodies,
    })
}

fn names(alloc: Global) -> Result<Items<Text>, NoMemory>
    ensures { IfOk result (λ names. names ≡ spec.program_names) }
{
    let mut names = declared_names(alloc)?;
    let mut more = value_names(alloc)?;
    names.append(&mut more)?;
    let mut more = block_names(alloc)?;
    names.append(&mut more)?;
    let mut more = facet_names(alloc)?;
    names.append(&mut more)?;
    Ok(Items::from_vec(names))
}

fn declared_names(alloc: Global) -> Result<Vec<Text>, NoMemory>
    ensures { IfOk result (λ names. names.items ≡ spec.declared_names) }
{
    texts(
        alloc,
        &[
            b"Base".as_slice(),
            b"new".as_slice(),
            b"Sub".as_slice(),
            b"x".as_slice(),
            b"y".as_slice(),
            b"z".as_slice(),
            b"foo".as_slice(),
            b"hid".as_slice(),
            b"sec".as_slice(),
            b"bar".as_slice(),
            b"make".as_slice(),
            b"Part".as_slice(),
            b"baz".as_slice(),
            b"+".as_slice(),
            b"at:put:".as_slice(),
        ],
    )
}

fn value_names(alloc: Global) -> Result<Vec<Text>, NoMemory>
    ensures { IfOk result (λ names. names.items ≡ spec.value_names) }
{
    texts(
        alloc,
        &[
            b"x:".as_slice(),
            b"y:".as_slice(),
            b"z:".as_slice(),
            b"console".as_slice(),
            b"<:".as_slice(),
            b"new:".as_slice(),
            b"printString".as_slice(),
            b"not".as_slice(),
        ],
    )
}

fn block_names(alloc: Global) -> Result<Vec<Text>, NoMemory>
    ensures { IfOk result (λ names. names.items ≡ spec.block_names) }
{
    texts(
        alloc,
        &[
            b"ifFalse:ifTrue:".as_slice(),
            b"//".as_slice(),
            b"timesRepeat:".as_slice(),
            b"size".as_slice(),
            b"<".as_slice(),
            b"do:".as_slice(),
            b"value".as_slice(),
            b"whileFalse:".as_slice(),
        ],
    )
}

fn facet_names(alloc: Global) -> Result<Vec<Text>, NoMemory>
    ensures { IfOk result (λ names. names.items ≡ spec.facet_names) }
{
    texts(
        alloc,
        &[
            b"Object".as_slice(),
            b"Array".as_slice(),
            b"print:".as_slice(),
            b"printLine:".as_slice(),
            b"at:".as_slice(),
            b"on:".as_slice(),
            b"className".as_slice(),
            b"perform:with:".as_slice(),
            b"selector".as_slice(),
            b"arguments".as_slice(),
            b"==".as_slice(),
        ],
    )
}

fn texts(alloc: Global, all: &[&[u8]]) -> Result<Vec<Text>, NoMemory>
    ensures { IfOk result (λ texts. texts.items ≡ map (λ text. text.now) all.now) }
{
    let mut texts = Vec::new(alloc);
    'texts: for text in all {
        texts.push(Text::of(alloc, text)?)?;
    }
    Ok(texts)
}

fn classes(alloc: Global) -> Result<Classes, NoMemory>
    ensures { IfOk result (λ classes. classes ≡ spec.program_classes) }
{
    let base = class_base(alloc)?;
    let sub = class_sub(alloc)?;
    let classes = vec![in alloc; base, class_part(alloc), sub, class_other(alloc)]?;
    Classes::of(alloc, Items::from_vec(classes))
}

fn class_base(alloc: Global) -> Result<ClassCode, NoMemory>
    ensures { IfOk result (λ class. class ≡ spec.class_base) }
{
    let slots = vec![in alloc; slot(3, 0), mutable_slot(4, 1)]?;
    let part = NestedCode {
        class: 1,
        access: 0,
    };
    let nested = vec![in alloc; part]?;
    let methods = vec![in alloc;
        method(9, 0, 1),
        method(7, 1, 2),
        method(8, 2, 3),
        method(6, 0, 4),
    ]?;
    let sides = vec![in alloc; method(10, 0, 5), method(7, 1, 6)]?;
    Ok(class(0, None, 0, slots, nested, methods, sides))
}

fn class_part(alloc: Global) -> ClassCode
    ensures { result ≡ spec.class_part }
{
    class(
        11,
        Some(0),
        7,
        Vec::new(alloc),
        Vec::new(alloc),
        Vec::new(alloc),
        Vec::new(alloc),
    )
}

fn class_sub(alloc: Global) -> Result<ClassCode, NoMemory>
    ensures { IfOk result (λ class. class ≡ spec.class_sub) }
{
    let slots = vec![in alloc; mutable_slot(3, 2), slot(5, 0)]?;
    let methods = vec![in alloc; method(12, 0, 9), method(9, 0, 9)]?;
    Ok(class(2, None, 8, slots, Vec::new(alloc), methods, Vec::new(alloc)))
}

fn class_other(alloc: Global) -> ClassCode
    ensures { result ≡ spec.class_other }
{
    class(
        0,
        None,
        10,
        Vec::new(alloc),
        Vec::new(alloc),
        Vec::new(alloc),
        Vec::new(alloc),
    )
}

fn class(
    name: u32,
    outer: Option<u32>,
    init: u32,
    slots: Vec<SlotCode>,
    nested: Vec<NestedCode>,
    methods: Vec<MethodCode>,
    side_methods: Vec<MethodCode>,
) -> ClassCode
    ensures { result ≡ sample.class_of name outer init slots.items nested.items methods.items side_methods.items }
{
    ClassCode {
        name: Sel(name),
        outer,
        factory: Sel(1),
        params: 0,
        clause: None,
        init,
        super_sel: Sel(1),
        slots: Items::from_vec(slots),
        nested: Items::from_vec(nested),
        methods: Items::from_vec(methods),
        side_methods: Items::from_vec(side_methods),
    }
}

fn slot(name: u32, access: u8) -> SlotCode
    ensures { result ≡ sample.slot_of name access }
{
    SlotCode {
        name: Sel(name),
        access,
        mutable: false,
    }
}

fn mutable_slot(name: u32, access: u8) -> SlotCode
    ensures { result ≡ sample.mutable_slot_of name access }
{
    SlotCode {
        name: Sel(name),
        access,
        mutable: true,
    }
}

fn method(sel: u32, access: u8, body: u32) -> MethodCode
    ensures { result ≡ sample.method_of sel access body }
{
    MethodCode {
        sel: Sel(sel),
        access,
        body,
    }
}

fn bodies(alloc: Global) -> Result<Items<BodyCode>, NoMemory>
    ensures { IfOk result (λ bodies. bodies ≡ spec.program_bodies) }
{
    let bodies = vec![in alloc;
        body(alloc, 2, 0, 0),
        body(alloc, 0, 0, 0),
        body(alloc, 0, 0, 0),
        body(alloc, 0, 0, 0),
        body(alloc, 0, 0, 0),
        body(alloc, 0, 1, 0),
        body(alloc, 0, 1, 0),
        body(alloc, 2, 0, 1),
        body(alloc, 2, 0, 2),
        body(alloc, 0, 0, 2),
        body(alloc, 2, 0, 3),
        body(alloc, 1, 0, 0),
    ]?;
    Ok(Items::from_vec(bodies))
}

fn body(alloc: Global, kind: u8, side: u8, class: u32) -> BodyCode
    ensures { result ≡ spec.body_of kind side class }
{
    BodyCode {
        kind,
        side,
        class,
        parent: None,
        params: 0,
        locals: 0,
        environment: false,
        height: 0,
        instrs: Instructions::none(alloc),
        places: Items::from_vec(Vec::new(alloc)),
        local_names: LocalNames::numbered(0),
    }
}
