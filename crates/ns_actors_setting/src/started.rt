//! Actors of sources, started.

use ns_actors::fault::AddFault;
use ns_actors_calls::actors::Actors;
use ns_base::limits::Limits;
use ns_facets::row::Grants;
use ns_session_files::text::code_of_text;
use ns_verify::verify::Verified;
use std::alloc::Global;

/// What each is granted: the console alone.
pub const GRANTED: Grants = Grants {
    console: true,
    kernel: false,
    mirrors: false,
    board: false,
};

/// The limits of each, which some of them meet.
pub const LIMITS: Limits = Limits {
    steps: 4_000,
    cells: 4_000,
    depth: 40,
    out: 200,
};

/// Whether that holds of actors of these sources, which are let go then.
pub fn with_actors<F: FnOnce(&mut Actors) -> bool>(
    alloc: Global,
    sources: &[&str],
    holds: F,
) -> bool
    requires { F.IsAlwaysCallable holds }
{
    let mut actors = Actors::new(alloc);
    takes_all(alloc, &mut actors, sources) && holds(&mut actors)
}

/// Whether an actor of each source is added under the next number.
fn takes_all(alloc: Global, actors: &mut Actors, sources: &[&str]) -> bool {
    for source in sources {
        let next = actors.count();
        match add(alloc, actors, source) {
            Some(Ok(number)) if number == next => {}
            _ => return false,
        }
    }
    true
}

/// What comes of adding an actor of this source; nothing where the source has no code.
pub fn add(alloc: Global, actors: &mut Actors, source: &str) -> Option<Result<u32, AddFault>> {
    if !LIMITS.are_in_range() {
        return None;
    }
    let code = code(alloc, source)?;
    Some(actors.add(code, GRANTED, LIMITS))
}

/// The code of a source, which is that of an application.
pub fn code(alloc: Global, source: &str) -> Option<Verified> {
    code_of_text(alloc, "T.ns", source, false).ok()
}
