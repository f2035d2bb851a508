//! All faults of a program.

ghost use Rattle.std.specs.Prelude.{◌≡◌, None, IfOk, length};
ghost use Rattle.ns_static.specs.Check.{faults_of};
ghost use Rattle.ns_static_rules.specs.Least.{order_of};
ghost use Rattle.ns_static_all.specs.All.{all_faults};
ghost use Rattle.ns_static_all.specs.InOrder.{in_order, once_behind};

use crate::order::{is_behind, order};
use ns_base::no_memory::NoMemory;
use ns_scope::program::Program;
use ns_static::check::found_in;
use ns_static_rules::fault::Placed;
use ns_static_rules::kept::{Kept, Room};
use ns_static_rules::laws::walks_keep_what_is_asked_for;
use std::alloc::Global;

/// All faults of a program, each once, by file, line, column and cause; none where it has none. They are counted
/// first, so that room for them is asked for once.
pub fn all_faults(alloc: Global, program: &Program) -> Result<Vec<Placed>, NoMemory>
    ensures { IfOk result (λ all. all.items ≡ all_faults program.now) }
{
    let count = faults_counted(alloc, program)?;
    let faults = faults_listed(alloc, program, count)?;
    in_order(alloc, faults)
}

/// How many faults there are; there is no memory for more of them than a number can say.
fn faults_counted(alloc: Global, program: &Program) -> Result<usize, NoMemory>
    ensures { IfOk result (λ count. count ≡ length (faults_of program.now)) }
{
    walks_keep_what_is_asked_for();
    let kept = found_in(alloc, program, Kept::Counted(0))?;
    let count = kept.into_count();
    if count == usize::MAX {
        return Err(NoMemory);
    }
    Ok(count)
}

/// The faults, which are so many, in the order of the text.
fn faults_listed(alloc: Global, program: &Program, count: usize) -> Result<Vec<Placed>, NoMemory>
    requires { count ≡ length (faults_of program.now) }
    ensures { IfOk result (λ listed. listed.items ≡ faults_of program.now) }
{
    walks_keep_what_is_asked_for();
    let room = Room::with(alloc, count)?;
    let kept = found_in(alloc, program, Kept::Listed(room))?;
    Ok(kept.into_list(alloc))
}

/// Faults in order, each once.
fn in_order(alloc: Global, faults: Vec<Placed>) -> Result<Vec<Placed>, NoMemory>
    ensures { IfOk result (λ all. all.items ≡ in_order order_of faults.items) }
{
    let mut faults = faults;
    faults.sort_unstable_by(|fault, other| order(*fault, *other));
    each_once(alloc, &faults)
}

/// Those of sorted faults that come behind the one before them.
fn each_once(alloc: Global, faults: &[Placed]) -> Result<Vec<Placed>, NoMemory>
    ensures { IfOk result (λ told. told.items ≡ once_behind order_of None faults.now) }
{
    let mut told = Vec::with_capacity(alloc, faults.len())?;
    let mut last = None;
    'faults: for fault in faults {
        if is_behind(last, *fault) {
            told.push(*fault)?;
            last = Some(*fault);
        }
    }
    Ok(told)
}
