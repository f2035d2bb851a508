//! The rows of the facets, in one table.

ghost use Rattle.std.specs.Prelude.{◌≡◌, ◌≤◌, All};
ghost use Rattle.ns_world.specs.World.{IsWithin};
ghost use Rattle.ns_world.specs.Lawful.{IsLive, IsLawful};
ghost use Rattle.ns_kdata.specs.Arguments.{CellIsThere};
ghost use Rattle.ns_kdata.specs.Outcome.{Gives};
ghost use Rattle.ns_facets.specs.Facet as spec;
ghost use Rattle.std.specs.Prelude.{length};

use crate::board::{Board, board_at, board_put};
use crate::console::print;
use crate::platform::{granted, top_class};
use ns_code::program::CodeProgram;
use ns_kdata::arguments::argument;
use ns_world::cell::FacetKind;
use ns_world::ending::Fault;
use ns_world::kernel_parts::FacetRow;
use ns_world::value::{KClass, Value};
use ns_world::world::World;

/// The answer of a row of a facet with its change of the world and the board, or its first fault,
/// after which nothing has changed. The receiver is the number of a facet that has the row, and
/// nothing else depends on it. An argument that isn't there is nil. Takes no memory.
#[tactic(auto, using(ns_kdata::specs::laws::Outcomes::argument_there))]
pub fn facet(
    world: &mut World,
    code: &CodeProgram,
    row: FacetRow,
    receiver: u32,
    args: &[Value],
    board: &mut Board,
) -> Result<Value, Fault>
    requires lawful { IsLawful world.old.world code.now }
    requires args { All (IsLive world.old.world.cells code.now) args.now }
    requires room { world.old.world.limits.out ≤ world.old.out_room }
    ensures world { Gives (spec.facet world.old.world code.now row args.now board.old) world.old result world.new }
    ensures board { board.new ≡ spec.board_after row args.now board.old }
{
    let _receiver = receiver;
    row_outcome(
        world,
        code,
        row,
        argument(args, 0),
        argument(args, 1),
        board,
    )
}

/// The same, by the first two arguments.
pub fn row_outcome(
    world: &mut World,
    code: &CodeProgram,
    row: FacetRow,
    first: Value,
    second: Value,
    board: &mut Board,
) -> Result<Value, Fault>
    requires within { IsWithin world.old.world }
    requires classes { length code.now.classes ≤ 4096 }
    requires first { CellIsThere world.old.world.cells first }
    requires room { world.old.world.limits.out ≤ world.old.out_room }
    ensures world { Gives (spec.row_outcome world.old.world code.now row first second board.old) world.old result world.new }
    ensures board { board.new ≡ spec.row_board row first second board.old }
{
    match row {
        FacetRow::Top(sel) => Ok(top_class(world, code, sel)),
        FacetRow::PlatformConsole => Ok(granted(world, FacetKind::Console)),
        FacetRow::PlatformKernel => Ok(granted(world, FacetKind::Kernel)),
        FacetRow::PlatformMirrors => Ok(granted(world, FacetKind::Mirrors)),
        FacetRow::PlatformBoard => Ok(granted(world, FacetKind::Board)),
        FacetRow::KernelObject => Ok(Value::Kernel(KClass::Object)),
        FacetRow::KernelArray => Ok(Value::Kernel(KClass::Array)),
        FacetRow::ConsolePrint => print(world, code, first, b"".as_slice()),
        FacetRow::ConsolePrintLine => print(world, code, first, b"\n".as_slice()),
        FacetRow::BoardAt => board_at(board, first),
        FacetRow::BoardPut => board_put(board, first, second),
    }
}
