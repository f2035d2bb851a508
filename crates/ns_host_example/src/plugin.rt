//! A machine for a text in memory.

use ns_base::limits::Limits;
use ns_facets::row::Grants;
use ns_machine::machine::Machine;
use ns_session_files::text::code_of_text;
use ns_verify::verify::Verified;
use std::alloc::Global;

/// What a run may use. The machine takes its memory for all of this when it is made.
pub const LIMITS: Limits = Limits {
    steps: 10_000,
    cells: 10_000,
    depth: 100,
    out: 1,
};

/// A plug-in is granted nothing: it can compute and answer.
pub const GRANTS: Grants = Grants {
    console: false,
    kernel: false,
    mirrors: false,
    board: false,
};

/// A machine that has made its start, or none where the text isn't a program or memory is wanted.
pub fn machine_of(alloc: Global, source: &str) -> Option<Machine> {
    let code = code(alloc, source)?;
    if !LIMITS.are_in_range() {
        return None;
    }
    Machine::new(alloc, code, LIMITS, GRANTS, &[]).ok()
}

/// The code of a text, which is the one file of its program.
pub fn code(alloc: Global, source: &str) -> Option<Verified> {
    code_of_text(alloc, "Plugin.ns", source, false).ok()
}
