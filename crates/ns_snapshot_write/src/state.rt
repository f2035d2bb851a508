//! The state of a run.

ghost use Rattle.std.specs.Prelude.{◌≡◌, ◌++◌, OnOk};
ghost use Rattle.ns_code.specs.Fits.{IsShort};
ghost use Rattle.ns_snapshot.specs.Bytes as spec;
ghost use Rattle.ns_snapshot_write.specs.Room.{StateHasRoom};
ghost use Rattle.ns_snapshot_write.specs.Segments as segments;

use crate::cell::{measure_cells, measure_text, put_cells};
use crate::output::{put_double, put_text, with_long};
use crate::part::{Part, measure_all, measure_counted, put_all, put_counted};
use crate::room::{Room, TooLarge};
use ns_base::limits::Limits;
use ns_base::no_memory::NoMemory;
use ns_facets::board::Plain;
use ns_facets::row::Grants;
use ns_frozen::frozen::Frozen;
use ns_image_write::write::output::{put_byte, put_flag};
use ns_world::ending::Counters;

/// A value of the board: its number, and what it holds.
impl Part for Plain {
    ghost layout = { spec.plain };

    ghost has_room = { λ _. Unit {0} };

    fn measure(&self, room: &mut Room) -> Result<(), TooLarge> {
        match self {
            Plain::Nil => room.take(1),
            Plain::True => room.take(1),
            Plain::False => room.take(1),
            Plain::Int(_) => room.take(9),
        }
    }

    fn put(&self, out: &mut Vec<u8>) -> Result<(), NoMemory> {
        match *self {
            Plain::Nil => put_byte(out, 0),
            Plain::True => put_byte(out, 1),
            Plain::False => put_byte(out, 2),
            Plain::Int(number) => with_long(out, 3, number),
        }
    }
}

impl Part for Frozen {
    ghost layout = { spec.frozen };

    ghost has_room = { StateHasRoom };

    fn measure(&self, room: &mut Room) -> Result<(), TooLarge> {
        room.take(68)?;
        measure_all(room, &self.board.places)?;
        measure_text(room, 9, self.output.bytes())?;
        self.pending.measure(room)?;
        self.ending.measure(room)?;
        measure_cells(room, &self.cells)?;
        measure_counted(room, self.frames.as_slice())
    }

    fn put(&self, out: &mut Vec<u8>) -> Result<(), NoMemory> {
        put_head(out, self)?;
        put_rest(out, self)
    }
}

/// What stands before that which waits.
fn put_head(out: &mut Vec<u8>, frozen: &Frozen) -> Result<(), NoMemory>
    requires { IsShort frozen.now.output }
    ensures { OnOk result (out.new.items ≡ out.old.items ++ segments.before_pending frozen.now) }
{
    put_bounds(out, frozen)?;
    put_outside(out, frozen)
}

/// Its limits, what is used of them, and its grants.
fn put_bounds(out: &mut Vec<u8>, frozen: &Frozen) -> Result<(), NoMemory>
    ensures { OnOk result (out.new.items ≡ out.old.items ++ segments.bounds frozen.now) }
{
    put_limits(out, frozen.limits)?;
    put_counters(out, frozen.used)?;
    put_grants(out, frozen.grants)
}

/// Its board, its output, and how far it has come.
fn put_outside(out: &mut Vec<u8>, frozen: &Frozen) -> Result<(), NoMemory>
    requires { IsShort frozen.now.output }
    ensures { OnOk result (out.new.items ≡ out.old.items ++ segments.outside frozen.now) }
{
    put_all(out, &frozen.board.places)?;
    put_text(out, frozen.output.bytes())?;
    put_double(out, frozen.homes)?;
    put_byte(out, frozen.phase)
}

/// What waits, the ending, the cells and the frames.
fn put_rest(out: &mut Vec<u8>, frozen: &Frozen) -> Result<(), NoMemory>
    requires { StateHasRoom frozen.now }
    ensures { OnOk result (out.new.items ≡ out.old.items ++ segments.from_pending frozen.now) }
{
    frozen.pending.put(out)?;
    frozen.ending.put(out)?;
    put_cells(out, &frozen.cells)?;
    put_counted(out, frozen.frames.as_slice())
}

fn put_limits(out: &mut Vec<u8>, limits: Limits) -> Result<(), NoMemory>
    ensures { OnOk result (out.new.items ≡ out.old.items ++ spec.limits limits) }
{
    put_double(out, limits.steps)?;
    put_double(out, limits.cells)?;
    put_double(out, limits.depth)?;
    put_double(out, limits.out)
}

fn put_counters(out: &mut Vec<u8>, counters: Counters) -> Result<(), NoMemory>
    ensures { OnOk result (out.new.items ≡ out.old.items ++ spec.counters counters) }
{
    put_double(out, counters.steps)?;
    put_double(out, counters.cells)?;
    put_double(out, counters.depth)?;
    put_double(out, counters.out)
}

fn put_grants(out: &mut Vec<u8>, grants: Grants) -> Result<(), NoMemory>
    ensures { OnOk result (out.new.items ≡ out.old.items ++ spec.grants grants) }
{
    put_flag(out, grants.console)?;
    put_flag(out, grants.kernel)?;
    put_flag(out, grants.mirrors)?;
    put_flag(out, grants.board)
}
