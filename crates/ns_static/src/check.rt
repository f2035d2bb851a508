//! Programs without static faults.

ghost use Rattle.std.specs.Prelude.{◌≡◌, None, IfOk, MatchResult};
ghost use Rattle.ns_scope.specs.Whole.{IsWhole};
ghost use Rattle.ns_static_rules.specs.Keeping.{keep_all};
ghost use Rattle.ns_static.specs.Check.{fault_of, faults_of, IsFaultless, FaultIsTold};

use crate::fault::StaticFault;
use crate::units::{Before, unit_faults};
use ns_base::no_memory::NoMemory;
use ns_scope::program::Program;
use ns_scope::table::Table;
use ns_static_rules::fault::Placed;
use ns_static_rules::kept::Kept;
use ns_static_rules::laws::walks_keep_what_is_asked_for;
use std::alloc::Global;
use std::marker::Model;

/// A whole program without static faults. A clause sees the program.
#[derive(Drop)]
pub struct Checked {
    program: Program,
}

impl Model for Checked {
    ghost use Rattle.std.specs.Prelude.{◌≡◌, None};
    ghost use Rattle.std.specs.Coded.{codes};
    ghost use Rattle.ns_tree.specs.contracts.tree.Class as class;
    ghost use Rattle.ns_scope.specs.Whole.{IsWhole};
    ghost use Rattle.ns_scope.specs.declared.program.Program.{Program};
    ghost use Rattle.ns_static.specs.Check.{fault_of};

    ghost Value = { Program };

    ghost coded = { Prim.hlevel (codes, class.the_row.coded) };

    ghost view = { λ checked. checked.program };

    ghost invariant = { λ checked. (fault_of checked.program ≡ None) × IsWhole checked.program };
}

impl Checked {
    /// The program.
    pub fn program(&self) -> &Program
        ensures program { result.now ≡ self.now }
        ensures faultless { IsFaultless result.now }
        ensures whole { IsWhole result.now }
    {
        &self.program
    }
}

/// The whole program, where it has no static fault; else its least one.
pub fn check(alloc: Global, program: Program) -> Result<Checked, StaticFault>
    requires whole { IsWhole program }
    ensures program { IfOk result (λ checked. checked ≡ program) }
    ensures exact { MatchResult result (λ _. fault_of program ≡ None) (λ fault. FaultIsTold (fault_of program) fault) }
{
    match least_fault(alloc, &program) {
        Ok(None) => Ok(Checked { program }),
        Ok(Some(least)) => {
            drop(program);
            Err(StaticFault::At {
                cause: least.cause,
                place: least.place,
            })
        }
        Err(_) => {
            drop(program);
            Err(StaticFault::Memory)
        }
    }
}

/// The least fault of a program, if it has one.
fn least_fault(alloc: Global, program: &Program) -> Result<Option<Placed>, NoMemory>
    ensures { IfOk result (λ least. least ≡ fault_of program.now) }
{
    walks_keep_what_is_asked_for();
    let kept = found_in(alloc, program, Kept::Least(None))?;
    Ok(kept.into_least())
}

/// What is kept when the faults of a program are found too, in the order of its text.
pub fn found_in(alloc: Global, program: &Program, kept: Kept) -> Result<Kept, NoMemory>
    ensures { IfOk result (λ found. found ≡ keep_all kept (faults_of program.now)) }
{
    let mut before = Before {
        names: Table::new(alloc, program.key),
        classes: 0,
    };
    let mut kept = kept;
    let units = program.units.as_slice();
    let marks = program.marks.as_slice();
    for (unit, marks) in units.iter().zip(marks) {
        kept = unit_faults(alloc, &mut before, kept, marks.as_slice(), unit)?;
    }
    Ok(kept)
}
