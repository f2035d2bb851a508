//! Moves through a run, and the line of each.

ghost use Rattle.std.specs.Prelude.{◌≡◌, ◌≤◌, IfOk, map, string_bytes};
ghost use Rattle.ns_replay.specs.At.{position_in};
ghost use Rattle.ns_run_replay.specs.Moves as spec;
ghost use Rattle.ns_run_words.specs.Words.{move_of as move_of_lem, steps_in};

use ns_base::no_memory::NoMemory;
use ns_replay::replay::Replay;
use ns_run_words::moves::{Move, move_of};
use ns_world::ending::Counters;
use std::alloc::Global;

/// The lines of moves from where a replay stands on.
pub fn lines_from(alloc: Global, replay: &mut Replay, moves: &[String]) -> Result<Vec<u8>, NoMemory>
    ensures { IfOk result (λ lines. lines.items ≡
        spec.lines_from replay.old.code replay.old.start (position_in replay.old.state) (map move_of_lem (map string_bytes moves.now))) }
{
    let mut lines = Vec::new(alloc);
    'moves: for word in moves {
        let step = aim(replay.position(), move_of(word.as_bytes()));
        replay.to(step);
        let line = line_of(alloc, replay.machine().counters())?;
        lines.extend_from_slice(line.as_bytes())?;
    }
    Ok(lines)
}

/// The step to which a move goes from a position, back to 0 at most.
fn aim(position: u64, to: Move) -> u64
    requires position { position ≤ 1000000000000 }
    requires few { steps_in to ≤ 1000000000000 }
    ensures { result ≡ spec.aim position to }
{
    match to {
        Move::Forward(steps) => position + steps,
        Move::Back(steps) => position.saturating_sub(steps),
        Move::To(step) => step,
    }
}

/// The line that tells what a run has used.
fn line_of(alloc: Global, used: Counters) -> Result<String, NoMemory>
    ensures { IfOk result (λ line. string_bytes line ≡ spec.line_of used) }
{
    let Counters {
        steps,
        cells,
        depth,
        out,
    } = used;
    Ok(format!(in alloc; "step {steps} cells {cells} depth {depth} out {out}\n")?)
}
