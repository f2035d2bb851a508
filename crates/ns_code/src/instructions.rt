//! The instructions of a body, in little memory.

ghost use Rattle.std.specs.Prelude.{◌≡◌, ◌++◌, ◌∷◌, [], IfOk, MatchOption, OnOk, length, map, option_to_list, slice_get, pos, false};
ghost use Rattle.std.specs.Option.{option_map_or};
ghost use Rattle.ns_code.specs.Instructions as spec;
ghost use Rattle.ns_code.specs.declared.instruction.Instr.TheVariants as instr;

use crate::instruction::Instr;
use ns_base::no_memory::NoMemory;
use ns_base::selector::Sel;
use std::alloc::Global;
use std::marker::Model;

/// What an instruction is but for its long operand: the number of a name, a text, a body or an instruction, or an integer.
#[derive(Clone, Copy)]
pub enum Operation {
    PushNil,
    PushTrue,
    PushFalse,
    PushInt,
    PushSym,
    PushText,
    PushSelf,
    PushOuter(u8),
    PushLocal { hops: u8, index: u8 },
    StoreLocal { hops: u8, index: u8 },
    PushBlock,
    MakeArray(u8),
    Pop,
    Pick(u8),
    Send { argc: u8 },
    SendInner { argc: u8 },
    SendPrivate { level: u8, argc: u8 },
    SendSuper { argc: u8 },
    InitSuper(u8),
    StoreSlot { high: u8, low: u8 },
    Return,
    ReturnSelf,
    ReturnHome,
    Jump,
    JumpFalse,
    JumpTrue,
}

const _: () = prove!(size_of::<Operation>() == 3);

/// A list of instructions. Most code has short operands, so each instruction takes the three bytes of its operation, and the
/// long operands stand beside these, in the order of the instructions. A clause sees the list alone.
#[derive(Drop)]
pub struct Instructions {
    operations: Vec<Operation>,
    words: Vec<u32>,
    integers: Vec<i64>,
}

impl Model for Instructions {
    ghost use Rattle.std.specs.Prelude.{List};
    ghost use Rattle.ns_code.specs.declared.instruction.Instr.{Instr};
    ghost use Rattle.ns_code.specs.Instructions.{united};

    ghost Value = { List Instr };

    ghost view = { λ kept. united kept.operations.items kept.words.items kept.integers.items };
}

impl Instructions {
    /// No instructions.
    pub fn none(alloc: Global) -> Instructions
        ensures { result ≡ [] }
    {
        Instructions {
            operations: Vec::new(alloc),
            words: Vec::new(alloc),
            integers: Vec::new(alloc),
        }
    }

    /// The list of these instructions, in memory of its own.
    #[tactic(auto, using(crate::proofs::United::united_again))]
    pub fn of(alloc: Global, instrs: &[Instr]) -> Result<Instructions, NoMemory>
        ensures { IfOk result (λ kept. kept ≡ instrs.now) }
    {
        let operations = operations_of(alloc, instrs)?;
        let words = words_of(alloc, instrs)?;
        let integers = integers_of(alloc, instrs)?;
        Ok(Instructions {
            operations,
            words,
            integers,
        })
    }

    /// The same list, in memory of its own.
    pub fn copy(&self, alloc: Global) -> Result<Instructions, NoMemory>
        ensures { IfOk result (λ copy. copy ≡ self.now) }
    {
        let operations = Vec::from_slice(alloc, self.operations.as_slice())?;
        let words = Vec::from_slice(alloc, self.words.as_slice())?;
        let integers = Vec::from_slice(alloc, self.integers.as_slice())?;
        Ok(Instructions {
            operations,
            words,
            integers,
        })
    }

    /// How many there are.
    #[tactic(auto, using(crate::proofs::United::as_many))]
    pub fn len(&self) -> usize
        ensures { result ≡ length self.now }
    {
        self.operations.len()
    }

    /// Whether there is an instruction of that number, and it carries a place.
    pub fn carries_place(&self, number: usize) -> bool
        ensures { result ≡ option_map_or spec.carries_place (slice_get self.now number) false }
    {
        is_carrier(operation_at(&self.operations, number))
    }

    /// All of them as those that are left, to be gone through without memory.
    pub fn left(&self) -> InstrsLeft<'_>
        ensures { result ≡ self.now }
    {
        InstrsLeft {
            operations: self.operations.as_slice(),
            words: self.words.as_slice(),
            integers: self.integers.as_slice(),
        }
    }

    /// The instructions in a vector.
    pub fn to_vec(&self, alloc: Global) -> Result<Vec<Instr>, NoMemory>
        ensures { IfOk result (λ instrs. instrs.items ≡ self.now) }
    {
        let mut instrs = Vec::with_capacity(alloc, self.operations.len())?;
        let mut words = self.words.as_slice();
        let mut integers = self.integers.as_slice();
        'operations: for operation in self.operations.as_slice() {
            instrs.push(instr_of(*operation, first_word(words), first_integer(integers)))?;
            words = behind(has_word(*operation), words);
            integers = behind(has_integer(*operation), integers);
        }
        Ok(instrs)
    }
}

/// Instructions that are left of a list, in the memory of the list. A clause sees those alone.
#[derive(Drop)]
pub struct InstrsLeft<'a> {
    operations: &'a [Operation],
    words: &'a [u32],
    integers: &'a [i64],
}

impl<'a> Model for InstrsLeft<'a> {
    ghost use Rattle.std.specs.Prelude.{List};
    ghost use Rattle.ns_code.specs.declared.instruction.Instr.{Instr};
    ghost use Rattle.ns_code.specs.Instructions.{united};

    ghost Value = { List Instr };

    ghost view = { λ left. united left.operations.now left.words.now left.integers.now };
}

impl<'a> InstrsLeft<'a> {
    /// The first one, and those that are left behind it.
    pub fn split_first(&self) -> Option<(Instr, InstrsLeft<'a>)>
        ensures { MatchOption result (self.now ≡ []) (λ both. self.now ≡ both.0 ∷ both.1) }
    {
        match self.operations {
            [operation, operations @ ..] => {
                let instr = instr_of(
                    *operation,
                    first_word(self.words),
                    first_integer(self.integers),
                );
                let left = InstrsLeft {
                    operations,
                    words: behind(has_word(*operation), self.words),
                    integers: behind(has_integer(*operation), self.integers),
                };
                Some((instr, left))
            }
            [] => None,
        }
    }
}

/// The operation of that number.
fn operation_at(operations: &[Operation], number: usize) -> Option<Operation>
    ensures { result ≡ slice_get operations.now number }
{
    operations.get(number).copied()
}

/// Whether there is an operation, and it carries a place.
fn is_carrier(operation: Option<Operation>) -> bool
    ensures { result ≡ option_map_or spec.is_carrier operation false }
{
    match operation {
        Some(operation) => carries(operation),
        None => false,
    }
}

/// Whether an operation carries a place: a send, or the start of a superclass part.
fn carries(operation: Operation) -> bool
    ensures { result ≡ spec.is_carrier operation }
{
    matches!(
        operation,
        Operation::Send { .. }
            | Operation::SendInner { .. }
            | Operation::SendPrivate { .. }
            | Operation::SendSuper { .. }
            | Operation::InitSuper(_)
    )
}

/// The operations of instructions.
fn operations_of(alloc: Global, instrs: &[Instr]) -> Result<Vec<Operation>, NoMemory>
    ensures { IfOk result (λ operations. operations.items ≡ map spec.operation_of instrs.now) }
{
    let mut operations = Vec::with_capacity(alloc, instrs.len())?;
    'instrs: for instr in instrs {
        operations.push(operation_of(*instr))?;
    }
    Ok(operations)
}

/// The long operands of instructions that are numbers of something.
fn words_of(alloc: Global, instrs: &[Instr]) -> Result<Vec<u32>, NoMemory>
    ensures { IfOk result (λ words. words.items ≡ spec.words_of instrs.now) }
{
    let mut words = Vec::new(alloc);
    'instrs: for instr in instrs {
        add(&mut words, word_of(*instr))?;
    }
    Ok(words)
}

/// The long operands of instructions that are integers.
fn integers_of(alloc: Global, instrs: &[Instr]) -> Result<Vec<i64>, NoMemory>
    ensures { IfOk result (λ integers. integers.items ≡ spec.integers_of instrs.now) }
{
    let mut integers = Vec::new(alloc);
    'instrs: for instr in instrs {
        add(&mut integers, integer_of(*instr))?;
    }
    Ok(integers)
}

/// Adds an operand, where there is one.
fn add<T: Drop>(operands: &mut Vec<T>, operand: Option<T>) -> Result<(), NoMemory>
    ensures { OnOk result (operands.new.items ≡ operands.old.items ++ option_to_list operand) }
{
    match operand {
        Some(operand) => {
            operands.push(operand)?;
            Ok(())
        }
        None => Ok(()),
    }
}

/// An instruction but for its long operand.
fn operation_of(instr: Instr) -> Operation
    ensures { result ≡ spec.operation_of instr }
{
    match instr {
        Instr::PushNil => Operation::PushNil,
        Instr::PushTrue => Operation::PushTrue,
        Instr::PushFalse => Operation::PushFalse,
        Instr::PushInt(_) => Operation::PushInt,
        Instr::PushSym(_) => Operation::PushSym,
        Instr::PushText(_) => Operation::PushText,
        Instr::PushSelf => Operation::PushSelf,
        Instr::PushOuter(level) => Operation::PushOuter(level),
        Instr::PushLocal { hops, index } => Operation::PushLocal { hops, index },
        Instr::StoreLocal { hops, index } => Operation::StoreLocal { hops, index },
        Instr::PushBlock(_) => Operation::PushBlock,
        Instr::MakeArray(count) => Operation::MakeArray(count),
        Instr::Pop => Operation::Pop,
        Instr::Pick(number) => Operation::Pick(number),
        Instr::Send { argc, .. } => Operation::Send { argc },
        Instr::SendInner { argc, .. } => Operation::SendInner { argc },
        Instr::SendPrivate { level, argc, .. } => Operation::SendPrivate { level, argc },
        Instr::SendSuper { argc, .. } => Operation::SendSuper { argc },
        Instr::InitSuper(argc) => Operation::InitSuper(argc),
        Instr::StoreSlot(slot) => store_slot(slot),
        Instr::Return => Operation::Return,
        Instr::ReturnSelf => Operation::ReturnSelf,
        Instr::ReturnHome => Operation::ReturnHome,
        Instr::Jump(_) => Operation::Jump,
        Instr::JumpFalse(_) => Operation::JumpFalse,
        Instr::JumpTrue(_) => Operation::JumpTrue,
    }
}

/// The operation that stores into a slot, whose number has two bytes.
fn store_slot(slot: u16) -> Operation
    ensures { result ≡ spec.operation_of (instr.StoreSlot slot) }
{
    Operation::StoreSlot {
        high: (slot / 256) as u8,
        low: (slot % 256) as u8,
    }
}

/// The long operand of an instruction, where it is the number of something.
fn word_of(instr: Instr) -> Option<u32>
    ensures { result ≡ spec.word_of instr }
{
    match instr {
        Instr::PushSym(sel) => Some(sel.0),
        Instr::PushText(text) => Some(text),
        Instr::PushBlock(body) => Some(body),
        Instr::Send { sel, .. } => Some(sel.0),
        Instr::SendInner { sel, .. } => Some(sel.0),
        Instr::SendPrivate { sel, .. } => Some(sel.0),
        Instr::SendSuper { sel, .. } => Some(sel.0),
        Instr::Jump(target) => Some(target),
        Instr::JumpFalse(target) => Some(target),
        Instr::JumpTrue(target) => Some(target),
        _ => None,
    }
}

/// The long operand of an instruction, where it is an integer.
fn integer_of(instr: Instr) -> Option<i64>
    ensures { result ≡ spec.integer_of instr }
{
    match instr {
        Instr::PushInt(integer) => Some(integer),
        _ => None,
    }
}

/// The instruction of an operation, whose long operand is the word or the integer.
fn instr_of(operation: Operation, word: u32, integer: i64) -> Instr
    ensures { result ≡ spec.instr_of operation word integer }
{
    let sel = Sel(word);
    match operation {
        Operation::PushNil => Instr::PushNil,
        Operation::PushTrue => Instr::PushTrue,
        Operation::PushFalse => Instr::PushFalse,
        Operation::PushInt => Instr::PushInt(integer),
        Operation::PushSym => Instr::PushSym(sel),
        Operation::PushText => Instr::PushText(word),
        Operation::PushSelf => Instr::PushSelf,
        Operation::PushOuter(level) => Instr::PushOuter(level),
        Operation::PushLocal { hops, index } => Instr::PushLocal { hops, index },
        Operation::StoreLocal { hops, index } => Instr::StoreLocal { hops, index },
        Operation::PushBlock => Instr::PushBlock(word),
        Operation::MakeArray(count) => Instr::MakeArray(count),
        Operation::Pop => Instr::Pop,
        Operation::Pick(number) => Instr::Pick(number),
        Operation::Send { argc } => Instr::Send { sel, argc },
        Operation::SendInner { argc } => Instr::SendInner { sel, argc },
        Operation::SendPrivate { level, argc } => Instr::SendPrivate { level, sel, argc },
        Operation::SendSuper { argc } => Instr::SendSuper { sel, argc },
        Operation::InitSuper(argc) => Instr::InitSuper(argc),
        Operation::StoreSlot { high, low } => Instr::StoreSlot(
            u16::from(high) * 256 + u16::from(low),
        ),
        Operation::Return => Instr::Return,
        Operation::ReturnSelf => Instr::ReturnSelf,
        Operation::ReturnHome => Instr::ReturnHome,
        Operation::Jump => Instr::Jump(word),
        Operation::JumpFalse => Instr::JumpFalse(word),
        Operation::JumpTrue => Instr::JumpTrue(word),
    }
}

/// Whether an operation has a long operand that is the number of something.
fn has_word(operation: Operation) -> bool
    ensures { result ≡ spec.has_word operation }
{
    matches!(
        operation,
        Operation::PushSym
            | Operation::PushText
            | Operation::PushBlock
            | Operation::Send { .. }
            | Operation::SendInner { .. }
            | Operation::SendPrivate { .. }
            | Operation::SendSuper { .. }
            | Operation::Jump
            | Operation::JumpFalse
            | Operation::JumpTrue
    )
}

/// Whether an operation has a long operand that is an integer.
fn has_integer(operation: Operation) -> bool
    ensures { result ≡ spec.has_integer operation }
{
    matches!(operation, Operation::PushInt)
}

/// The first word that is left.
fn first_word(words: &[u32]) -> u32
    ensures { result ≡ spec.first 0 words.now }
{
    match words {
        [word, ..] => *word,
        [] => 0,
    }
}

/// The first integer that is left.
fn first_integer(integers: &[i64]) -> i64
    ensures { result ≡ spec.first (pos 0) integers.now }
{
    match integers {
        [integer, ..] => *integer,
        [] => 0,
    }
}

/// The operands that are left behind an operation, which has one or none of them.
fn behind<T>(has_one: bool, operands: &[T]) -> &[T]
    ensures { result.now ≡ spec.behind has_one operands.now }
{
    match operands {
        [_, rest @ ..] => { if has_one { rest } else { operands } }
        [] => operands,
    }
}
