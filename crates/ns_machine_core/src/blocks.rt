//! Blocks by the quick way: one that finds no room isn't made.

ghost use Rattle.std.specs.Prelude.{◌≡◌, Option, IfSome};
ghost use Rattle.ns_base.specs.declared.place.Place.{Place as SourcePlace};
ghost use Rattle.ns_code.specs.declared.instruction.Instr.TheVariants as instr;
ghost use Rattle.ns_machine_core.specs.Doing.{CanDo};
ghost use Rattle.ns_machine_core.specs.Tried.{DoesOrNot};

use crate::giving::give;
use crate::settling::{running, running_code};
use crate::state::Core;
use ns_code::program::CodeProgram;
use ns_machine_frames::registers::Registers;
use ns_moves::cells::new_block;
use ns_moves::running::Running;
use ns_world::value::Value;

/// Pushes a new block of a body that stands in the one that runs.
#[inline(always)]
#[tactic(auto, using(crate::specs::laws::Pushed::one_more, crate::specs::laws::Pushed::runs))]
pub fn push_block(
    code: &CodeProgram,
    core: &mut Core,
    at: Registers,
    body: u32,
) -> Option<Registers>
    requires { CanDo code.now core.old at (instr.PushBlock body) }
    ensures { (place : Option SourcePlace) → DoesOrNot code.now (instr.PushBlock body) place core.old at core.new result }
{
    let activation = running(&core.stack).activation;
    match over_cells(running_code(activation)) {
        Some(running) => match new_block(&mut core.run.world, running, body) {
            Ok(value) => Some(give(code, core, at, value)),
            Err(_) => None,
        },
        None => None,
    }
}

/// The same running code, told anew where its self is a cell and it runs in an environment or none, as nearly all does: so the words of
/// its block are written without telling the kinds of these apart.
#[inline(always)]
fn over_cells(running: Running) -> Option<Running>
    ensures { IfSome result (λ same. same ≡ running) }
{
    match running.me {
        Value::Ref(me) => match running.env {
            Value::Ref(env) => Some(Running {
                me: Value::Ref(me),
                env: Value::Ref(env),
                ..running
            }),
            Value::Nil => Some(Running {
                me: Value::Ref(me),
                env: Value::Nil,
                ..running
            }),
            _ => None,
        },
        _ => None,
    }
}
