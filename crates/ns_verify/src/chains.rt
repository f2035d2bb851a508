//! The bodies around blocks.

ghost use Rattle.std.specs.Prelude.{◌≡◌, ◌≤◌, [], IfOk, length};
ghost use Rattle.std.specs.List.{slice_index_or};
ghost use Rattle.ns_verify.specs.Chains as spec;

use ns_base::no_memory::NoMemory;
use ns_code::body::BodyCode;
use ns_code::kinds::BLOCK;
use std::alloc::Global;

/// The body in which a block of that number stands: its parent, where that has a smaller number.
pub fn around(number: u32, body: &BodyCode) -> Option<u32>
    ensures { result ≡ spec.around number body.now }
{
    if body.kind != BLOCK {
        return None;
    }
    match body.parent {
        Some(parent) => { if parent < number { Some(parent) } else { None } }
        None => None,
    }
}

/// The kind of the outermost body around a body, from these kinds of all bodies before it.
fn home_kind(before: &[u8], body: &BodyCode) -> u8
    requires { length before.now ≤ 65536 }
    ensures { result ≡ spec.home_kind before.now body.now }
{
    match around(before.len() as u32, body) {
        Some(parent) => kind_or(before, parent, body.kind),
        None => body.kind,
    }
}

/// The kind of that number, or else another one.
pub fn kind_or(kinds: &[u8], number: u32, other: u8) -> u8
    ensures { result ≡ slice_index_or kinds.now number other }
{
    match kinds.get(number as usize) {
        Some(kind) => *kind,
        None => other,
    }
}

/// The kinds of the outermost bodies around all bodies, by number.
pub fn home_kinds(alloc: Global, bodies: &[BodyCode]) -> Result<Vec<u8>, NoMemory>
    requires { length bodies.now ≤ 65536 }
    ensures { IfOk result (λ kinds. kinds.items ≡ spec.home_kinds_from [] bodies.now) }
{
    let mut kinds = Vec::new(alloc);
    'bodies: for body in bodies {
        let kind = home_kind(kinds.as_slice(), body);
        kinds.push(kind)?;
    }
    Ok(kinds)
}
