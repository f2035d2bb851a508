//! A run as it is asked for.

use ns_base::limits::Limits;
use ns_base::text::Text;
use ns_run_outcome::report::Report;
use ns_run_outcome::run::Telling;

/// A run as it is asked for: how it is told, its limits, its arguments, and the options, of which those that name texts give it
/// its inputs.
#[derive(Clone, Copy)]
pub struct RunTask<'a> {
    pub telling: Telling,
    pub limits: Limits,
    pub arguments: &'a [String],
    pub options: &'a [String],
}

/// What is read of an input: its text, or the report that refuses it.
#[derive(Drop)]
pub enum Input {
    Read(Text),
    Refused(Report),
}
