//! Which environments fit a body.

ghost use Rattle.std.specs.Prelude.{◌≡◌};
ghost use Rattle.ns_world.specs.Heap.{find_cell};
ghost use Rattle.ns_world.specs.Lawful.{environment_in};
ghost use Rattle.ns_frozen.specs.Live as live;
ghost use Rattle.ns_frozen_seen.specs.Seen.{IsSeen, heap_of};
ghost use Rattle.ns_frozen_fitting.specs.Environments as spec;
ghost use Rattle.ns_frozen_seen.specs.Fitting.{AreFitting};

use crate::fitting::is_known_within;
use ns_frozen_seen::plain::is_nil;
use ns_frozen_seen::seen::Seen;
use ns_world::value::Value;

/// Whether an environment fits a body, or nil no body, over at most so many bodies around one another.
pub fn fits_environment(
    seen: &Seen<'_>,
    kept: &[u32],
    depth: u64,
    body: Option<u32>,
    env: Value,
) -> bool
    requires seen { IsSeen seen.now }
    requires kept { AreFitting seen.now.code.now (heap_of seen.now) seen.now.numbers kept.now }
    ensures { result ≡ live.fits_environment depth seen.now.code.now (heap_of seen.now) body env }
{
    let mut body = body;
    let mut env = env;
    'bodies: for done in 0..depth {
        match body {
            Some(number) => {
                if is_known_within(seen, kept, depth - done, number, env) {
                    return true;
                }
                match around(seen, number, env) {
                    Some((parent, outer)) => {
                        body = parent;
                        env = outer;
                    }
                    None => return false,
                }
            }
            None => return is_nil(env),
        }
    }
    body.is_none() && is_nil(env)
}

/// The body and the environment around those of that number, where these fit one another.
pub fn around(seen: &Seen<'_>, body: u32, env: Value) -> Option<(Option<u32>, Value)>
    requires { IsSeen seen.now }
    ensures { result ≡ spec.around seen.now.code.now (heap_of seen.now) body env }
{
    match env {
        Value::Ref(at) => around_at(seen, body, at),
        _ => None,
    }
}

/// The same of the environment of that number.
fn around_at(seen: &Seen<'_>, body: u32, at: u32) -> Option<(Option<u32>, Value)>
    requires { IsSeen seen.now }
    ensures { result ≡ spec.around_in seen.now.code.now body (environment_in (find_cell (heap_of seen.now) at)) }
{
    match seen.environment(at) {
        Some((parent, locals)) => around_with(seen, body, parent, locals.len()),
        None => None,
    }
}

/// The same of an environment with that parent and so many locals.
fn around_with(
    seen: &Seen<'_>,
    body: u32,
    parent: Value,
    locals: usize,
) -> Option<(Option<u32>, Value)>
    ensures { result ≡ spec.around_with seen.now.code.now body parent locals }
{
    match seen.code.bodies.as_slice().get(body as usize) {
        Some(body) => {
            if locals == usize::from(body.locals) {
                Some((body.parent, parent))
            } else {
                None
            }
        }
        None => None,
    }
}
