//! A small program of two classes, of which a test changes one part.
//!
//! Class A is top-level and has a private mutable slot, a private nested class B and methods of both
//! sides. Body 1 is its method `foo`, in which block 4 stands, and in that block 8; body 5 is the
//! clause of B, in which block 9 stands. No class names body 10.

ghost use Rattle.std.specs.Prelude.{◌≡◌, ◌≢◌, true};
ghost use Rattle.std.specs.List.{AllPairs};
ghost use Rattle.ns_verify.specs.Counts.{HasFewParts};

use ns_base::items::Items;
use ns_base::no_memory::NoMemory;
use ns_base::selector::Sel;
use ns_base::text::Text;
use ns_code::body::BodyCode;
use ns_code::class::{ClassCode, MethodCode, NestedCode, SlotCode};
use ns_code::classes::Classes;
use ns_code::instruction::Instr;
use ns_code::instructions::Instructions;
use ns_code::local_names::LocalNames;
use ns_code::names::Names;
use ns_code::program::CodeProgram;
use ns_verify::fault::Fault;
use ns_verify::faults::first_fault;
use ns_verify_members::texts::are_different;
use std::alloc::Global;

pub const PUBLIC: u8 = 0;

pub const PRIVATE: u8 = 2;

/// A class record, with its lists still in the tables of the tests.
#[derive(Clone, Copy)]
pub struct Class {
    pub name: u32,
    pub outer: Option<u32>,
    pub factory: u32,
    pub params: u8,
    pub clause: Option<u32>,
    pub init: u32,
    pub super_sel: u32,
    pub slots: &'static [SlotCode],
    pub nested: &'static [NestedCode],
    pub methods: &'static [MethodCode],
    pub side_methods: &'static [MethodCode],
}

/// A body, with its instructions still in the tables of the tests.
#[derive(Clone, Copy)]
pub struct Body {
    pub kind: u8,
    pub side: u8,
    pub class: u32,
    pub parent: Option<u32>,
    pub params: u8,
    pub locals: u8,
    pub environment: bool,
    pub height: u16,
    pub instrs: &'static [Instr],
}

/// The names, by number.
const NAMES: [&str; 11] = [
    "A", "B", "new", "x", "y", "foo", "bar:", "at:put:", "+", "x:", "of:",
];

pub const FOO: Sel = Sel(5);

pub const BAR: Sel = Sel(6);

pub const A: Class = Class {
    name: 0,
    outer: None,
    factory: 2,
    params: 0,
    clause: None,
    init: 0,
    super_sel: 2,
    slots: &[
        SlotCode {
            name: Sel(3),
            access: 2,
            mutable: true,
        },
        SlotCode {
            name: Sel(4),
            access: 0,
            mutable: false,
        },
    ],
    nested: &[NestedCode {
        class: 1,
        access: 2,
    }],
    methods: &[
        MethodCode {
            sel: Sel(5),
            access: 2,
            body: 1,
        },
        MethodCode {
            sel: Sel(6),
            access: 0,
            body: 2,
        },
    ],
    side_methods: &[MethodCode {
        sel: Sel(5),
        access: 2,
        body: 3,
    }],
};

pub const B: Class = Class {
    name: 1,
    outer: Some(0),
    factory: 10,
    params: 1,
    clause: Some(5),
    init: 6,
    super_sel: 6,
    slots: &[],
    nested: &[],
    methods: &[MethodCode {
        sel: Sel(5),
        access: 0,
        body: 7,
    }],
    side_methods: &[],
};

/// A method of A.
pub const METHOD: Body = Body {
    kind: 0,
    side: 0,
    class: 0,
    parent: None,
    params: 0,
    locals: 2,
    environment: true,
    height: 3,
    instrs: &[Instr::ReturnSelf],
};

/// A block of A.
pub const BLOCK: Body = Body {
    kind: 1,
    parent: Some(4),
    locals: 1,
    instrs: &[Instr::PushNil, Instr::Return],
    ..METHOD
};

const BODIES: [Body; 11] = [
    Body {
        kind: 2,
        instrs: &[Instr::InitSuper(0), Instr::ReturnSelf],
        ..METHOD
    },
    METHOD,
    Body {
        params: 1,
        environment: false,
        ..METHOD
    },
    Body { side: 1, ..METHOD },
    Body {
        parent: Some(1),
        ..BLOCK
    },
    Body {
        kind: 3,
        instrs: &[Instr::PushNil, Instr::Return],
        ..METHOD
    },
    Body {
        kind: 2,
        class: 1,
        params: 1,
        instrs: &[
            Instr::PushLocal { hops: 0, index: 0 },
            Instr::InitSuper(1),
            Instr::ReturnSelf,
        ],
        ..METHOD
    },
    Body { class: 1, ..METHOD },
    BLOCK,
    Body {
        parent: Some(5),
        ..BLOCK
    },
    Body {
        class: 1,
        locals: 1,
        ..METHOD
    },
];

/// Whether that is the first fault of the sample with these classes and with another body in the place
/// of one.
pub fn has_fault(
    alloc: Global,
    classes: &[Class],
    changed: u32,
    body: Body,
    wanted: Option<Fault>,
) -> bool {
    let Ok(code) = program(alloc, classes, changed, body) else {
        return false;
    };
    if !has_few_parts(&code) {
        return false;
    }
    if !names_differ(alloc, code.names.as_slice()) {
        return false;
    }
    match first_fault(alloc, &code) {
        Ok(found) => found == wanted,
        Err(_) => false,
    }
}

/// The sample with other instructions in one body.
pub fn with_instrs(number: u32, instrs: &'static [Instr]) -> Body {
    match BODIES.get(number as usize) {
        Some(body) => Body { instrs, ..*body },
        None => Body { instrs, ..METHOD },
    }
}

/// The program with these classes, and with this body in the place of the one of that number.
fn program(
    alloc: Global,
    classes: &[Class],
    changed: u32,
    body: Body,
) -> Result<CodeProgram, NoMemory> {
    let mut names = Vec::new(alloc);
    for name in NAMES {
        names.push(Text::of(alloc, name.as_bytes())?)?;
    }
    let mut texts = Vec::new(alloc);
    texts.push(Text::of(alloc, b"text".as_slice())?)?;
    let mut records = Vec::new(alloc);
    for class in classes {
        records.push(class_code(alloc, *class)?)?;
    }
    let mut bodies = Vec::new(alloc);
    for (number, sample) in BODIES.iter().enumerate() {
        let chosen = if number == changed as usize {
            body
        } else {
            *sample
        };
        bodies.push(body_code(alloc, chosen)?)?;
    }
    Ok(CodeProgram {
        files: Items::from_vec(Vec::new(alloc)),
        names: Names::of(alloc, Items::from_vec(names))?,
        texts: Items::from_vec(texts),
        classes: Classes::of(alloc, Items::from_vec(records))?,
        bodies: Items::from_vec(bodies),
    })
}

fn class_code(alloc: Global, class: Class) -> Result<ClassCode, NoMemory> {
    Ok(ClassCode {
        name: Sel(class.name),
        outer: class.outer,
        factory: Sel(class.factory),
        params: class.params,
        clause: class.clause,
        init: class.init,
        super_sel: Sel(class.super_sel),
        slots: Items::from_vec(Vec::from_slice(alloc, class.slots)?),
        nested: Items::from_vec(Vec::from_slice(alloc, class.nested)?),
        methods: Items::from_vec(Vec::from_slice(alloc, class.methods)?),
        side_methods: Items::from_vec(Vec::from_slice(alloc, class.side_methods)?),
    })
}

fn body_code(alloc: Global, body: Body) -> Result<BodyCode, NoMemory> {
    Ok(BodyCode {
        kind: body.kind,
        side: body.side,
        class: body.class,
        parent: body.parent,
        params: body.params,
        locals: body.locals,
        environment: body.environment,
        height: body.height,
        instrs: Instructions::of(alloc, body.instrs)?,
        places: Items::from_vec(Vec::new(alloc)),
        local_names: LocalNames::numbered(0),
    })
}

/// Whether code has few enough parts to be looked at.
fn has_few_parts(code: &CodeProgram) -> bool
    ensures { result ≡ true → HasFewParts code.now }
{
    'bodies: for body in code.bodies.as_slice() {
        if body.instrs.len() > 65_536 {
            return false;
        }
    }
    code.names.len() <= 65_536 && code.classes.len() <= 65_536 && code.bodies.len() <= 65_536
}

/// Whether no name comes twice.
#[tactic(auto, using(crate::proofs::Different::different_pairs))]
fn names_differ(alloc: Global, names: &[Text]) -> bool
    ensures { result ≡ true → AllPairs (λ a b. a ≢ b) names.now }
{
    match are_different(alloc, names) {
        Ok(different) => different,
        Err(_) => false,
    }
}
