//! Applications made of a source in memory.

use ns_base::limits::Limits;
use ns_facets::row::Grants;
use ns_session::fault::AddFault;
use ns_session::session::Session;
use ns_session_files::text::code_of_text;
use std::alloc::Global;

/// The console alone.
const GRANTED: Grants = Grants {
    console: true,
    kernel: false,
    mirrors: false,
    board: false,
};

/// Few steps, since one of the applications never ends by itself.
const LIMITS: Limits = Limits {
    steps: 500,
    ..Limits::DEFAULT
};

/// Adds the application of a source to a session, with the console alone: what the session answers, or none where the source
/// isn't that of an application.
pub fn add(alloc: Global, session: &mut Session, source: &str) -> Option<Result<u32, AddFault>> {
    match code_of_text(alloc, "T.ns", source, false) {
        Ok(code) if LIMITS.are_in_range() => Some(session.add(code, GRANTED, LIMITS)),
        _ => None,
    }
}
