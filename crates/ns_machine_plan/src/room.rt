//! How many places bodies have. They are counted before the plan is made, since its sends, of which each has a place, get memory at once.

ghost use Rattle.std.specs.Prelude.{◌≡◌, ◌+◌, length, IfOk};
ghost use Rattle.ns_machine_plan.specs.Steps.{all_places};

use crate::step::NO_PLACE;
use ns_base::no_memory::NoMemory;
use ns_code::body::BodyCode;

/// How many places bodies have. More than have numbers find no memory.
pub fn place_count(bodies: &[BodyCode]) -> Result<u32, NoMemory>
    ensures { IfOk result (λ count. count ≡ length (all_places bodies.now)) }
{
    let mut count: u32 = 0;
    'bodies: for body in bodies {
        count = more(count, body.places.len())?;
    }
    Ok(count)
}

/// So many more. More than have numbers find no memory.
fn more(count: u32, others: usize) -> Result<u32, NoMemory>
    ensures { IfOk result (λ sum. sum ≡ count + others) }
{
    if others > (NO_PLACE - count) as usize {
        return Err(NoMemory);
    }
    Ok(count + others as u32)
}
