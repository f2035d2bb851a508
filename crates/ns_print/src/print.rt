//! The canonical source of a file.

ghost use Rattle.std.specs.Prelude.{◌≡◌, IfOk};
ghost use Rattle.ns_tree.specs.Flat.{flat};
ghost use Rattle.ns_tree.specs.PlainOf.{unit_of};
ghost use Rattle.ns_print.specs.Printed.{printed};

use crate::declarations::put_unit;
use ns_base::no_memory::NoMemory;
use ns_tree::tree::Unit;
use std::alloc::Global;

/// The canonical source: the file's tokens, a line feed behind each full stop, a blank between any
/// other two, and a line feed at the end. Comments aren't kept.
pub fn print(alloc: Global, unit: &Unit) -> Result<Vec<u8>, NoMemory>
    ensures { IfOk result (λ source. source.items ≡ printed (flat (unit_of unit.now))) }
{
    let mut out = Vec::new(alloc);
    put_unit(&mut out, unit)?;
    out.pop();
    out.push(b'\n')?;
    Ok(out)
}
