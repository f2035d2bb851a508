//! What can be wrong at an instruction of a body, and with a body as a whole.

ghost use Rattle.std.specs.Prelude.{◌≡◌, ◌≤◌, ◌<◌, false};
ghost use Rattle.ns_verify.specs.Causes as spec;
ghost use Rattle.ns_verify.specs.Heights as heights;
ghost use Rattle.ns_verify.specs.Around.{AreTablesOf, IsAround};

use crate::around::Around;
use crate::chains::around;
use crate::fault::VerifyCause;
use crate::heights::Pass;
use crate::tables::Tables;
use ns_base::selector::Sel;
use ns_code::body::BodyCode;
use ns_code::instruction::Instr;
use ns_code::kinds::{BLOCK, CLAUSE, INITIALISER, INSTANCES, METHOD};
use ns_code::program::CodeProgram;
use ns_code::table::{ends_wrongly, goes_on, takes, target};
use ns_verify_members::names::is_name;

/// The greatest height of a body that can run.
const MOST_OPERANDS: u16 = 1_023;

/// The first cause that holds at an instruction, in the order of their numbers.
pub fn cause_at(
    code: &CodeProgram,
    tables: &Tables,
    around: &Around,
    number: u32,
    body: &BodyCode,
    home: u8,
    pass: &Pass,
    at: u32,
    instr: Instr,
) -> Option<VerifyCause>
    requires tables { AreTablesOf code.now tables.now }
    requires around { IsAround code.now number body.now.class around.now }
    requires at { at < 65536 }
    ensures cause { result ≡ spec.cause_at code.now number body.now home pass.now at instr }
    ensures low { result ≡ None → heights.height_at pass.now at ≤ 65535 }
{
    if has_bad_jump(body, instr) {
        return Some(VerifyCause::BadJump);
    }
    if has_bad_height(body, pass, at, instr) {
        return Some(VerifyCause::BadHeight);
    }
    if has_bad_slot(code, around, number, body, instr) {
        return Some(VerifyCause::BadSlot);
    }
    if has_bad_scope_at(
        code,
        tables,
        around,
        number,
        body,
        home,
        pass.has_started(),
        at,
        instr,
    ) {
        return Some(VerifyCause::BadScope);
    }
    if has_bad_name(code, tables, body, instr) {
        return Some(VerifyCause::BadLiteral);
    }
    if runs_on(body, at, instr) {
        return Some(VerifyCause::NoReturn);
    }
    None
}

/// The first cause that holds of a body without instructions.
pub fn empty_cause(code: &CodeProgram, number: u32, body: &BodyCode) -> VerifyCause
    ensures { result ≡ spec.empty_cause code.now number body.now }
{
    if has_bad_head(code, number, body) {
        VerifyCause::BadScope
    } else {
        VerifyCause::NoReturn
    }
}

/// Whether the target of a jump isn't below the number of instructions.
fn has_bad_jump(body: &BodyCode, instr: Instr) -> bool
    ensures { result ≡ spec.has_bad_jump body.now instr }
{
    match target(instr) {
        Some(at) => (at as usize) >= body.instrs.len(),
        None => false,
    }
}

/// Whether an operand is missing, the height is above the body's, a frame would end at a wrong
/// height, or an instruction is given two heights.
fn has_bad_height(body: &BodyCode, pass: &Pass, at: u32, instr: Instr) -> bool
    ensures bad { result ≡ spec.has_bad_height body.now pass.now at instr }
    ensures low { result ≡ false → heights.height_at pass.now at ≤ 65535 }
{
    let height = pass.height_at(at);
    if height < takes(instr) {
        return true;
    }
    if height > u32::from(body.height) {
        return true;
    }
    ends_wrongly(instr, height) || pass.falls_apart(at) || pass.jumps_apart(at, instr)
}

/// Whether a slot isn't below the slots of the body's class, or a local isn't one of its body.
fn has_bad_slot(
    code: &CodeProgram,
    around: &Around,
    number: u32,
    body: &BodyCode,
    instr: Instr,
) -> bool
    requires { IsAround code.now number body.now.class around.now }
    ensures { result ≡ spec.has_bad_slot code.now number body.now instr }
{
    match instr {
        Instr::StoreSlot(slot) => is_no_slot(code, body.class, slot),
        Instr::PushLocal { hops, index } | Instr::StoreLocal { hops, index } => {
            is_no_local(code, around, number, body, hops, index)
        }
        _ => false,
    }
}

/// Whether a slot isn't below the slots of a class that is there.
fn is_no_slot(code: &CodeProgram, class: u32, slot: u16) -> bool
    ensures { result ≡ spec.is_no_slot code.now class slot }
{
    match code.classes.as_slice().get(class as usize) {
        Some(class) => usize::from(slot) >= class.slots.len(),
        None => false,
    }
}

/// Whether a local isn't below the locals of its body, if that is there.
fn is_no_local(
    code: &CodeProgram,
    around: &Around,
    number: u32,
    body: &BodyCode,
    hops: u8,
    index: u8,
) -> bool
    requires { IsAround code.now number body.now.class around.now }
    ensures { result ≡ spec.is_no_local code.now number hops index }
{
    let _body = body;
    let _number = number;
    match around.body(hops) {
        Some(holder) => lacks_local(code, holder, index),
        None => false,
    }
}

fn lacks_local(code: &CodeProgram, number: u32, index: u8) -> bool
    ensures { result ≡ spec.lacks_local code.now index number }
{
    match code.bodies.as_slice().get(number as usize) {
        Some(body) => index >= body.locals,
        None => false,
    }
}

/// Whether what it names isn't there, or it stands in a body where it can't be used. What is wrong
/// with the whole body is named at the first instruction.
fn has_bad_scope_at(
    code: &CodeProgram,
    tables: &Tables,
    around: &Around,
    number: u32,
    body: &BodyCode,
    home: u8,
    started: bool,
    at: u32,
    instr: Instr,
) -> bool
    requires tables { AreTablesOf code.now tables.now }
    requires around { IsAround code.now number body.now.class around.now }
    ensures { result ≡ spec.has_bad_scope_at code.now number body.now home started at instr }
{
    if at == 0 && has_bad_head(code, number, body) {
        return true;
    }
    has_bad_use(code, tables, around, number, body, home, started, instr)
}

fn has_bad_use(
    code: &CodeProgram,
    tables: &Tables,
    around: &Around,
    number: u32,
    body: &BodyCode,
    home: u8,
    started: bool,
    instr: Instr,
) -> bool
    requires tables { AreTablesOf code.now tables.now }
    requires around { IsAround code.now number body.now.class around.now }
    ensures { result ≡ spec.has_bad_use code.now number body.now home started instr }
{
    match instr {
        Instr::PushOuter(level) => is_no_level(code, around, number, body, level),
        Instr::SendPrivate { level, sel, .. } => {
            is_no_level(code, around, number, body, level)
                || is_no_private(code, tables, around, number, body, level, sel)
        }
        Instr::PushLocal { hops, .. } | Instr::StoreLocal { hops, .. } => {
            around.body(hops).is_none()
        }
        Instr::PushBlock(block) => !is_block_in(code, number, block),
        Instr::InitSuper(_) => body.kind != INITIALISER || started,
        Instr::StoreSlot(_) => body.kind != INITIALISER,
        Instr::ReturnHome => !(body.kind == BLOCK && home == METHOD),
        Instr::Return => body.kind == INITIALISER,
        Instr::ReturnSelf => body.kind == CLAUSE || body.kind == BLOCK,
        _ => false,
    }
}

/// Whether a body's class is there, but no declaration at that level.
fn is_no_level(code: &CodeProgram, around: &Around, number: u32, body: &BodyCode, level: u8) -> bool
    requires { IsAround code.now number body.now.class around.now }
    ensures { result ≡ spec.is_no_level code.now body.now level }
{
    let _number = number;
    (body.class as usize) < code.classes.len() && around.declaration(level).is_none()
}

/// Whether the declaration at that level has no private member of that selector. At level 0 it is
/// looked for on the code's own side, further out on that of instances.
fn is_no_private(
    code: &CodeProgram,
    tables: &Tables,
    around: &Around,
    number: u32,
    body: &BodyCode,
    level: u8,
    sel: Sel,
) -> bool
    requires tables { AreTablesOf code.now tables.now }
    requires around { IsAround code.now number body.now.class around.now }
    ensures { result ≡ spec.is_no_private code.now body.now level sel }
{
    let _number = number;
    if !is_name(code, sel) {
        return false;
    }
    let side = if level == 0 { body.side } else { INSTANCES };
    match around.declaration(level) {
        Some(class) => tables.lacks_private(code, class, side, sel),
        None => false,
    }
}

/// Whether a body is a block in that one.
fn is_block_in(code: &CodeProgram, number: u32, block: u32) -> bool
    ensures { result ≡ spec.is_block_in code.now number block }
{
    match code.bodies.as_slice().get(block as usize) {
        Some(block) => block.kind == BLOCK && block.parent == Some(number),
        None => false,
    }
}

/// Whether a body's class isn't there, it is misplaced, or its counts are too large.
fn has_bad_head(code: &CodeProgram, number: u32, body: &BodyCode) -> bool
    ensures { result ≡ spec.has_bad_head code.now number body.now }
{
    if (body.class as usize) >= code.classes.len() {
        return true;
    }
    if is_misplaced(code, number, body) {
        return true;
    }
    body.params > body.locals || body.height > MOST_OPERANDS
}

/// Whether a block stands in no earlier body, in one of another class or side, or in one without an
/// environment; or another body stands in one.
fn is_misplaced(code: &CodeProgram, number: u32, body: &BodyCode) -> bool
    ensures { result ≡ spec.is_misplaced code.now number body.now }
{
    if body.kind != BLOCK {
        return body.parent.is_some();
    }
    match around(number, body) {
        Some(parent) => !holds_block(code, parent, body),
        None => true,
    }
}

/// Whether a body is there, of the class and side of a block, with an environment for it.
fn holds_block(code: &CodeProgram, parent: u32, block: &BodyCode) -> bool
    ensures { result ≡ spec.holds_block code.now block.now parent }
{
    match code.bodies.as_slice().get(parent as usize) {
        Some(parent) => {
            parent.class == block.class && parent.side == block.side && parent.environment
        }
        None => false,
    }
}

/// Whether a name or text isn't there, or a message is sent with another number of arguments.
fn has_bad_name(code: &CodeProgram, tables: &Tables, body: &BodyCode, instr: Instr) -> bool
    requires { AreTablesOf code.now tables.now }
    ensures { result ≡ spec.has_bad_name code.now body.now instr }
{
    match instr {
        Instr::PushSym(sel) => !is_name(code, sel),
        Instr::PushText(text) => (text as usize) >= code.texts.len(),
        Instr::Send { sel, argc }
        | Instr::SendInner { sel, argc }
        | Instr::SendPrivate { sel, argc, .. }
        | Instr::SendSuper { sel, argc } => is_bad_send(code, tables, sel, argc),
        Instr::InitSuper(argc) => is_bad_start(code, tables, body.class, argc),
        _ => false,
    }
}

/// Whether a selector isn't a name, or takes another number of arguments.
fn is_bad_send(code: &CodeProgram, tables: &Tables, sel: Sel, argc: u8) -> bool
    requires { AreTablesOf code.now tables.now }
    ensures { result ≡ spec.is_bad_send code.now sel argc }
{
    !is_name(code, sel) || usize::from(argc) != tables.arity(code, sel)
}

/// Whether that isn't the number of arguments of the superclass message of a class that is there.
fn is_bad_start(code: &CodeProgram, tables: &Tables, class: u32, argc: u8) -> bool
    requires { AreTablesOf code.now tables.now }
    ensures { result ≡ spec.is_bad_start code.now class argc }
{
    match code.classes.as_slice().get(class as usize) {
        Some(class) => {
            is_name(code, class.super_sel)
                && usize::from(argc) != tables.arity(code, class.super_sel)
        }
        None => false,
    }
}

/// Whether it is the last instruction, and may go on.
fn runs_on(body: &BodyCode, at: u32, instr: Instr) -> bool
    requires { at < 65536 }
    ensures { result ≡ spec.runs_on body.now at instr }
{
    at as usize + 1 == body.instrs.len() && goes_on(instr)
}
