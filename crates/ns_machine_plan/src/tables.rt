//! The tables of packed steps: what doesn't fit into eight bytes, each under a number.

ghost use Rattle.std.specs.Prelude.{◌≡◌, ◌<◌, [], ◌∷◌, ◌++◌, length, map, IfOk, OnErr};
ghost use Rattle.std.specs.List.{slice_index_or};
ghost use Rattle.ns_machine_plan.specs.declared.packed.Packed.TheVariants as packed;
ghost use Rattle.ns_machine_plan.specs.declared.step.Step.TheVariants.{PushNil, PushInt};
ghost use Rattle.ns_machine_plan.specs.Packed as spec;

use crate::packed::{Packed, PrivateSend, SuperSend, ValueSend};
use crate::step::{SpelledRow, Step};
use ns_base::no_memory::NoMemory;
use std::alloc::Global;

/// Long integers; sends to values; private sends; and sends to the superclass.
#[derive(Drop)]
pub struct Tables {
    integers: Vec<i64>,
    sends: Vec<ValueSend>,
    privates: Vec<PrivateSend>,
    supers: Vec<SuperSend>,
}

impl Tables {
    /// Empty tables, with room for so many sends to values.
    pub fn with_room(alloc: Global, sends: usize) -> Result<Tables, NoMemory>
        ensures { IfOk result spec.AreEmpty }
    {
        let sends = Vec::with_capacity(alloc, sends)?;
        Ok(Tables {
            integers: Vec::new(alloc),
            sends,
            privates: Vec::new(alloc),
            supers: Vec::new(alloc),
        })
    }

    /// Packs a step. What doesn't fit gets the next number of its table; more than have numbers find no memory.
    pub fn pack(&mut self, step: Step) -> Result<Packed, NoMemory>
        ensures keeps { spec.StandsForSame self.old self.new }
        ensures packed { IfOk result (spec.StandsFor self.new step) }
    {
        match step {
            Step::PushNil => Ok(Packed::PushNil),
            Step::PushTrue => Ok(Packed::PushTrue),
            Step::PushFalse => Ok(Packed::PushFalse),
            Step::PushInt(number) => self.pack_integer(number),
            Step::PushSym(sel) => Ok(Packed::PushSym(sel)),
            Step::PushText(text) => Ok(Packed::PushText(text)),
            Step::PushSelf => Ok(Packed::PushSelf),
            Step::PushOuter(level) => Ok(Packed::PushOuter(level)),
            Step::PushLocal { hops, index } => Ok(Packed::PushLocal { hops, index }),
            Step::StoreLocal { hops, index } => Ok(Packed::StoreLocal { hops, index }),
            Step::PushBlock(block) => Ok(Packed::PushBlock(block)),
            Step::MakeArray(count) => Ok(Packed::MakeArray(count)),
            Step::Pop => Ok(Packed::Pop),
            Step::Pick(number) => Ok(Packed::Pick(number)),
            Step::Send {
                sel,
                argc,
                kind,
                place,
                row,
            } => self.pack_send(
                ValueSend {
                    sel,
                    place,
                    argc,
                    kind,
                },
                row,
            ),
            Step::SendPrivate {
                level,
                sel,
                argc,
                place,
                member,
            } => self.pack_private(PrivateSend {
                sel,
                place,
                member,
                level,
                argc,
            }),
            Step::SendSuper { sel, argc, place } => self.pack_super(SuperSend { sel, place, argc }),
            Step::InitSuper { argc, place } => Ok(Packed::InitSuper { argc, place }),
            Step::StoreSlot(slot) => Ok(Packed::StoreSlot(slot)),
            Step::Return => Ok(Packed::Return),
            Step::ReturnSelf => Ok(Packed::ReturnSelf),
            Step::ReturnHome => Ok(Packed::ReturnHome),
            Step::Jump(target) => Ok(Packed::Jump(target)),
            Step::JumpFalse(target) => Ok(Packed::JumpFalse(target)),
            Step::JumpTrue(target) => Ok(Packed::JumpTrue(target)),
        }
    }

    /// The step that a packed one stands for.
    #[inline(always)]
    pub fn unpack(&self, packed: &Packed) -> Step
        requires { spec.EntryIsThere self.now packed.now }
        ensures { result ≡ spec.unpacked self.now packed.now }
    {
        match packed {
            Packed::PushNil => Step::PushNil,
            Packed::PushTrue => Step::PushTrue,
            Packed::PushFalse => Step::PushFalse,
            Packed::PushShort(number) => Step::PushInt(i64::from(*number)),
            Packed::PushLong(at) => Step::PushInt(self.integer(*at)),
            Packed::PushSym(sel) => Step::PushSym(*sel),
            Packed::PushText(text) => Step::PushText(*text),
            Packed::PushSelf => Step::PushSelf,
            Packed::PushOuter(level) => Step::PushOuter(*level),
            Packed::PushLocal { hops, index } => Step::PushLocal {
                hops: *hops,
                index: *index,
            },
            Packed::StoreLocal { hops, index } => Step::StoreLocal {
                hops: *hops,
                index: *index,
            },
            Packed::PushBlock(block) => Step::PushBlock(*block),
            Packed::MakeArray(count) => Step::MakeArray(*count),
            Packed::Pop => Step::Pop,
            Packed::Pick(number) => Step::Pick(*number),
            Packed::Send(at) => value_step(self.send(*at), None),
            Packed::SendInteger { row, send } => {
                value_step(self.send(*send), Some(SpelledRow::Integer(*row)))
            }
            Packed::SendBoolean { method, send } => {
                value_step(self.send(*send), Some(SpelledRow::Boolean(*method)))
            }
            Packed::SendArray { row, send } => {
                value_step(self.send(*send), Some(SpelledRow::Array(*row)))
            }
            Packed::SendPrivate(at) => private_step(self.private(*at)),
            Packed::SendSuper(at) => super_at(self.supers.as_slice(), *at),
            Packed::InitSuper { argc, place } => Step::InitSuper {
                argc: *argc,
                place: *place,
            },
            Packed::StoreSlot(slot) => Step::StoreSlot(*slot),
            Packed::Return => Step::Return,
            Packed::ReturnSelf => Step::ReturnSelf,
            Packed::ReturnHome => Step::ReturnHome,
            Packed::Jump(target) => Step::Jump(*target),
            Packed::JumpFalse(target) => Step::JumpFalse(*target),
            Packed::JumpTrue(target) => Step::JumpTrue(*target),
        }
    }

    /// The long integer of that number.
    #[inline(always)]
    pub fn integer(&self, at: u32) -> i64
        requires { spec.EntryIsThere self.now (packed.PushLong at) }
        ensures { spec.unpacked self.now (packed.PushLong at) ≡ PushInt result }
    {
        self.integers.as_slice()[at as usize]
    }

    /// The send to a value of that number.
    #[inline(always)]
    pub fn send(&self, at: u32) -> &ValueSend
        requires { spec.EntryIsThere self.now (packed.Send at) }
        ensures { spec.SendIsAt self.now at result.now }
    {
        &self.sends.as_slice()[at as usize]
    }

    /// The private send of that number.
    #[inline(always)]
    pub fn private(&self, at: u32) -> &PrivateSend
        requires { spec.EntryIsThere self.now (packed.SendPrivate at) }
        ensures { spec.unpacked self.now (packed.SendPrivate at) ≡ spec.private_send result.now }
    {
        &self.privates.as_slice()[at as usize]
    }

    /// An integer, which fits where it has 32 bits.
    fn pack_integer(&mut self, number: i64) -> Result<Packed, NoMemory>
        ensures keeps { spec.StandsForSame self.old self.new }
        ensures packed { IfOk result (spec.StandsFor self.new (PushInt number)) }
    {
        match i32::try_from(number) {
            Ok(short) => Ok(Packed::PushShort(short)),
            Err(_) => self.pack_long(number),
        }
    }

    /// An integer, in its table.
    fn pack_long(&mut self, number: i64) -> Result<Packed, NoMemory>
        ensures keeps { spec.StandsForSame self.old self.new }
        ensures packed { IfOk result (spec.StandsFor self.new (PushInt number)) }
    {
        let at = put(&mut self.integers, number)?;
        Ok(Packed::PushLong(at))
    }

    /// A send to a value, in its table, told apart by what its selector spells.
    fn pack_send(&mut self, send: ValueSend, row: Option<SpelledRow>) -> Result<Packed, NoMemory>
        ensures keeps { spec.StandsForSame self.old self.new }
        ensures packed { IfOk result (spec.StandsFor self.new (spec.value_send row send)) }
    {
        let at = put(&mut self.sends, send)?;
        Ok(packed_send(at, row))
    }

    /// A private send, in its table.
    fn pack_private(&mut self, send: PrivateSend) -> Result<Packed, NoMemory>
        ensures keeps { spec.StandsForSame self.old self.new }
        ensures packed { IfOk result (spec.StandsFor self.new (spec.private_send send)) }
    {
        let at = put(&mut self.privates, send)?;
        Ok(Packed::SendPrivate(at))
    }

    /// A send to the superclass, in its table.
    fn pack_super(&mut self, send: SuperSend) -> Result<Packed, NoMemory>
        ensures keeps { spec.StandsForSame self.old self.new }
        ensures packed { IfOk result (spec.StandsFor self.new (spec.super_send send)) }
    {
        let at = put(&mut self.supers, send)?;
        Ok(Packed::SendSuper(at))
    }
}

/// Puts an entry into a table, under the next number. More entries than have numbers find no memory.
fn put<T: Copy>(table: &mut Vec<T>, entry: T) -> Result<u32, NoMemory>
    ensures number { IfOk result (λ number. number ≡ length table.old.items) }
    ensures put { IfOk result (λ _. table.new.items ≡ table.old.items ++ entry ∷ []) }
    ensures err { OnErr result (table.new.items ≡ table.old.items) }
{
    let Ok(number) = u32::try_from(table.len()) else {
        return Err(NoMemory);
    };
    table.push(entry)?;
    Ok(number)
}

/// The packed step of a send to a value of that number, by what its selector spells.
fn packed_send(send: u32, row: Option<SpelledRow>) -> Packed
    ensures { result ≡ spec.packed_send send row }
{
    match row {
        Some(SpelledRow::Integer(row)) => Packed::SendInteger { row, send },
        Some(SpelledRow::Boolean(method)) => Packed::SendBoolean { method, send },
        Some(SpelledRow::Array(row)) => Packed::SendArray { row, send },
        None => Packed::Send(send),
    }
}

/// The step of a send to a value, with what its selector spells.
#[inline(always)]
fn value_step(send: &ValueSend, row: Option<SpelledRow>) -> Step
    ensures { result ≡ spec.value_send row send.now }
{
    Step::Send {
        sel: send.sel,
        argc: send.argc,
        kind: send.kind,
        place: send.place,
        row,
    }
}

/// The step of a private send.
#[inline(always)]
fn private_step(send: &PrivateSend) -> Step
    ensures { result ≡ spec.private_send send.now }
{
    Step::SendPrivate {
        level: send.level,
        sel: send.sel,
        argc: send.argc,
        place: send.place,
        member: send.member,
    }
}

/// The step of a send to the superclass in a table.
#[inline(always)]
fn super_at(sends: &[SuperSend], at: u32) -> Step
    requires { at < length sends.now }
    ensures { result ≡ slice_index_or (map spec.super_send sends.now) at PushNil }
{
    let send = &sends[at as usize];
    Step::SendSuper {
        sel: send.sel,
        argc: send.argc,
        place: send.place,
    }
}
