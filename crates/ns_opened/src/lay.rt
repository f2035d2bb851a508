//! The texts that a host hands over, laid behind the cells of a program.

ghost use Rattle.std.specs.Prelude.{◌≡◌, IfOk};
ghost use Rattle.ns_opened.specs.Laid as spec;

use ns_base::no_memory::NoMemory;
use ns_frozen::frozen::Frozen;
use ns_frozen::stored::Cells;
use ns_handed::lay::{is_within, put_cells};
use ns_handed::value::Hand;
use ns_machine::machine::Machine;
use ns_machine_restore::restore::restore;
use ns_world::ending::Counters;
use std::alloc::Global;

/// One more than the greatest number that a reference can have.
const NUMBERS: u64 = 4_294_967_296;

/// Whether the limit on cells leaves room for the texts.
pub fn has_room(hands: &[Hand], machine: &Machine) -> bool
    ensures { result ≡ spec.has_room hands.now machine.now }
{
    let used = machine.counters().cells;
    let most = machine.world().limits().cells;
    most < NUMBERS && is_within(used, hands, most)
}

/// Lays texts behind the cells of a program, of which that many are used then; where none is handed over it stays as it is. False comes
/// where the state with them isn't one in which a run can be.
pub fn lay_texts(
    alloc: Global,
    hands: &[Hand],
    texts: &[u8],
    behind: u64,
    machine: &mut Machine,
) -> Result<bool, NoMemory>
    requires { behind ≡ spec.cells_behind hands.now machine.old }
    ensures { IfOk result (λ is_laid. spec.if_so is_laid machine.new ≡ spec.with_texts hands.now texts.now machine.old) }
{
    if behind == machine.counters().cells {
        return Ok(true);
    }
    let frozen = frozen_with(alloc, hands, texts, behind, machine)?;
    stand_at(alloc, machine, &frozen)
}

/// The state of a program with the texts behind its cells.
fn frozen_with(
    alloc: Global,
    hands: &[Hand],
    texts: &[u8],
    behind: u64,
    machine: &Machine,
) -> Result<Frozen, NoMemory>
    ensures { IfOk result (λ state. state ≡ spec.frozen_with behind hands.now texts.now machine.now) }
{
    let frozen = machine.freeze(alloc)?;
    laid(behind, hands, texts, frozen)
}

/// Puts a program where that state stands, if it is one in which a run can be.
fn stand_at(alloc: Global, machine: &mut Machine, frozen: &Frozen) -> Result<bool, NoMemory>
    ensures { IfOk result (λ stands. spec.if_so stands machine.new ≡ spec.program_at machine.old frozen.now) }
{
    match restore(alloc, machine, frozen) {
        Ok(None) => Ok(true),
        Ok(Some(_)) => Ok(false),
        Err(NoMemory) => Err(NoMemory),
    }
}

/// A state with the texts behind its cells, of which that many are used then.
fn laid(behind: u64, hands: &[Hand], texts: &[u8], frozen: Frozen) -> Result<Frozen, NoMemory>
    ensures { IfOk result (λ state. state ≡ spec.laid behind hands.now texts.now frozen) }
{
    let Frozen {
        limits,
        used,
        grants,
        board,
        output,
        homes,
        phase,
        pending,
        ending,
        cells,
        frames,
    } = frozen;
    let mut made = cells.into_maker();
    put_cells(&mut made, texts, hands)?;
    Ok(Frozen {
        limits,
        used: Counters {
            steps: used.steps,
            cells: behind,
            depth: used.depth,
            out: used.out,
        },
        grants,
        board,
        output,
        homes,
        phase,
        pending,
        ending,
        cells: Cells::of(made),
        frames,
    })
}
