//! The rows of mirrors, in one table.

ghost use Rattle.std.specs.Prelude.{◌≤◌, All, IsSome};
ghost use Rattle.ns_world.specs.Heap.{find_cell};
ghost use Rattle.ns_world.specs.Lawful.{IsLiveValue, IsLawful};
ghost use Rattle.ns_kdata.specs.Arguments.{CellIsThere};
ghost use Rattle.ns_kdata.specs.Outcome.{RowOutcome, Gives};
ghost use Rattle.ns_world.specs.World.{WorldView};
ghost use Rattle.ns_mirror.specs.Mirror as spec;
ghost use Rattle.ns_mirror.specs.Mirror.{GivesMirrored};

use crate::naming::class_name;
use crate::row::Mirrored;
use crate::selectors::selectors;
use crate::slots::{slot, slot_names, slot_put};
use crate::value::{enclosing, mirrored};
use ns_base::selector::Sel;
use ns_code::program::CodeProgram;
use ns_kdata::arguments::{argument, array_size, is_array, wrong_kind};
use ns_kdata::making::make_cell;
use ns_world::cell::NewCell;
use ns_world::ending::{Fault, Kind};
use ns_world::kernel_parts::MirrorRow;
use ns_world::value::{Value, cell_number};
use ns_world::world::World;

/// The answer of a row of a mirror with its change of the world, or the send that is to be made; or
/// its first fault, after which nothing has changed. The receiver is the number of the mirror, for
/// `on:` that of the facet. An argument that isn't there is nil. Takes no memory.
pub fn mirror(
    world: &mut World,
    code: &CodeProgram,
    row: MirrorRow,
    receiver: u32,
    args: &[Value],
) -> Result<Mirrored, Fault>
    requires lawful { IsLawful world.old.world code.now }
    requires receiver { IsSome (find_cell world.old.world.cells receiver) }
    requires args { All (IsLiveValue world.old.world.cells code.now) args.now }
    requires room { world.old.world.limits.cells ≤ world.old.cell_room }
    ensures { GivesMirrored (spec.mirror world.old.world code.now row receiver args.now) world.old result world.new }
{
    let value = mirrored(world, receiver);
    row_outcome(
        world,
        code,
        row,
        value,
        argument(args, 0),
        argument(args, 1),
    )
}

/// The same, by the value that is mirrored and the first two arguments.
fn row_outcome(
    world: &mut World,
    code: &CodeProgram,
    row: MirrorRow,
    value: Value,
    first: Value,
    second: Value,
) -> Result<Mirrored, Fault>
    requires lawful { IsLawful world.old.world code.now }
    requires value { IsLiveValue world.old.world.cells code.now value }
    requires second { CellIsThere world.old.world.cells second }
    requires room { world.old.world.limits.cells ≤ world.old.cell_room }
    ensures { GivesMirrored (spec.row_outcome world.old.world code.now row value first second) world.old result world.new }
{
    match row {
        MirrorRow::On => answered(make_cell(world, NewCell::Mirror(first))),
        MirrorRow::ClassName => answered(class_name(world, code, value)),
        MirrorRow::SlotNames => answered(slot_names(world, code, value)),
        MirrorRow::Slot => answered(slot(world, code, value, first)),
        MirrorRow::SlotPut => answered(slot_put(world, code, value, first, second)),
        MirrorRow::Selectors => answered(selectors(world, code, value)),
        MirrorRow::Enclosing => Ok(Mirrored::Answer(enclosing(world, value))),
        MirrorRow::Perform => perform(world, code, value, first, second),
    }
}

/// A value as the answer of a mirror.
fn answered(answer: Result<Value, Fault>) -> Result<Mirrored, Fault>
    ensures { (outcome : RowOutcome) (old new : WorldView) → Gives outcome old answer new → GivesMirrored (spec.reflected outcome) old result new }
{
    match answer {
        Ok(value) => Ok(Mirrored::Answer(value)),
        Err(fault) => Err(fault),
    }
}

/// `perform:with:`: the send of a symbol with the elements of an array.
pub fn perform(
    world: &World,
    code: &CodeProgram,
    receiver: Value,
    name: Value,
    args: Value,
) -> Result<Mirrored, Fault>
    requires { CellIsThere world.now.world.cells args }
    ensures { GivesMirrored (spec.perform world.now.world code.now receiver name args) world.now result world.now }
{
    match name {
        Value::Sym(sel) => performed_with(world, code, receiver, sel, args),
        _ => Err(wrong_kind()),
    }
}

fn performed_with(
    world: &World,
    code: &CodeProgram,
    receiver: Value,
    sel: Sel,
    args: Value,
) -> Result<Mirrored, Fault>
    requires { CellIsThere world.now.world.cells args }
    ensures { GivesMirrored (spec.performed_with world.now.world code.now receiver sel args) world.now result world.now }
{
    if !is_array(world, args) {
        return Err(wrong_kind());
    }
    if array_size(world, args) as usize != code.selector_arity(sel) {
        return Err(Fault::Kind(Kind::WrongArity));
    }
    Ok(Mirrored::Perform {
        receiver,
        sel,
        args: cell_number(args),
    })
}
