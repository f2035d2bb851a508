//! The rows of the kernel, in one table.

ghost use Rattle.std.specs.Prelude.{◌≡◌, true};
ghost use Rattle.ns_world.specs.World.{SameRoom};
ghost use Rattle.ns_kdata.specs.Arguments.{CellIsThere};
ghost use Rattle.ns_world.specs.Heap.{Heap};
ghost use Rattle.ns_moves.specs.Kernel as spec;
ghost use Rattle.ns_moves.specs.Suiting.{RowSuits, is_reference};
ghost use Rattle.ns_kernel_rows.specs.Asked.{CanBeAsked};
ghost use Rattle.ns_kernel_rows.specs.Plain.{IsOfRow};
ghost use Rattle.ns_kernel_rows.specs.Reaching.{CallReaches, ReachesAlone, ReachesAlways, mirror_answered};
ghost use Rattle.ns_kernel_rows.specs.Parts as parts;

use crate::blocks::{block_arity, method_begun, value_with_arguments};
use crate::classes::mixed;
use crate::reached::{answered, fails};
use ns_base::selector::Sel;
use ns_code::program::CodeProgram;
use ns_facets::board::Board;
use ns_facets::facet::facet;
use ns_kdata::arguments::{argument, number_of, shape_of_value};
use ns_kdata::datum::datum;
use ns_kint::integer::integer;
use ns_mirror::mirror::mirror;
use ns_mirror::row::Mirrored;
use ns_moves::control::{Given, Reached};
use ns_world::cell::NewCell;
use ns_world::ending::{Fault, Kind};
use ns_world::kernel_parts::{DataRow, FacetRow, MirrorRow};
use ns_world::kernel_row::Row;
use ns_world::value::{Value, cell_number};
use ns_world::world::World;

/// What a row of the kernel comes to, with its receiver and its arguments, sent as that selector.
/// An argument that isn't there is nil. Takes no memory.
#[inline(always)]
pub fn row_reached(
    world: &mut World,
    board: &mut Board,
    code: &CodeProgram,
    row: Row,
    sel: Sel,
    receiver: Value,
    args: &[Value],
) -> Reached
    requires asked { CanBeAsked code.now world.old receiver args.now }
    requires suits { RowSuits world.old.world.cells receiver row }
    ensures reached { CallReaches code.now args.now (spec.row_reached code.now row sel receiver args.now) world.old board.old result world.new board.new }
    ensures limits { world.new.world.limits ≡ world.old.world.limits }
    ensures room { SameRoom world.old world.new }
    ensures row { IsOfRow world.new.world.cells result }
{
    match row {
        Row::Integer(int) => answered(integer(int, number_of(receiver), argument(args, 0))),
        Row::Data(about) => data_reached(world, code, about, receiver, args),
        Row::Top => facet_reached(world, board, code, FacetRow::Top(sel), receiver, args),
        Row::Facet(row) => facet_reached(world, board, code, row, receiver, args),
        Row::Mirror(row) => mirror_reached(world, code, row, receiver, args),
        Row::Method(method) => {
            method_begun(
                world,
                method,
                receiver,
                argument(args, 0),
                argument(args, 1),
            )
        }
        Row::Apply => mixed(world, code, receiver, argument(args, 0)),
        Row::Value => Reached::Evaluates {
            block: receiver,
            given: Given::Listed,
        },
        Row::ValueWithArguments => value_with_arguments(world, receiver, argument(args, 0)),
        Row::NumArgs => Reached::Gives(Value::Int(i64::from(block_arity(world, code, receiver)))),
    }
}

/// What a row of the data of values comes to.
#[inline(never)]
fn data_reached(
    world: &mut World,
    code: &CodeProgram,
    row: DataRow,
    receiver: Value,
    args: &[Value],
) -> Reached
    requires { CanBeAsked code.now world.old receiver args.now }
    ensures reached { ReachesAlone code.now args.now (spec.data_reached code.now row receiver args.now) world.old result world.new }
    ensures limits { world.new.world.limits ≡ world.old.world.limits }
    ensures room { SameRoom world.old world.new }
    ensures row { IsOfRow world.new.world.cells result }
{
    ns_kdata::laws::rows_lead_on();
    match row {
        DataRow::DoesNotUnderstand => message_refused(world, argument(args, 0)),
        _ => answered(datum(world, code, row, receiver, args)),
    }
}

/// The kernel's `doesNotUnderstand:`: the error is named by the selector of its Message; WrongKind
/// where the argument is none.
fn message_refused(world: &World, message: Value) -> Reached
    requires { CellIsThere world.now.world.cells message }
    ensures reached { ReachesAlways (parts.refused message) world.now result world.now }
    ensures row { IsOfRow world.now.world.cells result }
{
    match shape_of_value(world, message) {
        NewCell::Message { sel, .. } => Reached::Refused(sel),
        _ => fails(Kind::WrongKind),
    }
}

/// What a row of a facet comes to.
#[inline(never)]
fn facet_reached(
    world: &mut World,
    board: &mut Board,
    code: &CodeProgram,
    row: FacetRow,
    receiver: Value,
    args: &[Value],
) -> Reached
    requires { CanBeAsked code.now world.old receiver args.now }
    ensures reached { CallReaches code.now args.now (spec.facet_reached code.now row args.now) world.old board.old result world.new board.new }
    ensures limits { world.new.world.limits ≡ world.old.world.limits }
    ensures room { SameRoom world.old world.new }
    ensures row { IsOfRow world.new.world.cells result }
{
    ns_facets::laws::rows_lead_on();
    answered(facet(world, code, row, cell_number(receiver), args, board))
}

/// What a row of a mirror comes to.
#[inline(never)]
fn mirror_reached(
    world: &mut World,
    code: &CodeProgram,
    row: MirrorRow,
    receiver: Value,
    args: &[Value],
) -> Reached
    requires asked { CanBeAsked code.now world.old receiver args.now }
    requires cell { is_reference receiver ≡ true }
    ensures reached { ReachesAlone code.now args.now (parts.mirror_reached code.now row receiver args.now) world.old result world.new }
    ensures limits { world.new.world.limits ≡ world.old.world.limits }
    ensures room { SameRoom world.old world.new }
    ensures row { IsOfRow world.new.world.cells result }
{
    ns_mirror::laws::rows_lead_on();
    mirrored(mirror(world, code, row, cell_number(receiver), args))
}

/// The answer of a mirror, the send that it asks for, or its fault.
#[inline(never)]
fn mirrored(answer: Result<Mirrored, Fault>) -> Reached
    ensures reached { result ≡ mirror_answered answer }
    ensures row { (heap : Heap) → IsOfRow heap result }
{
    match answer {
        Ok(Mirrored::Answer(value)) => Reached::Gives(value),
        Ok(
            Mirrored::Perform {
                receiver,
                sel,
                args: array,
            },
        ) => Reached::Performs {
            receiver,
            sel,
            array,
        },
        Err(fault) => Reached::Fails(fault),
    }
}
