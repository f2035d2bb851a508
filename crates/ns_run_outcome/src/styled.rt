//! A report in the style that is asked for.

ghost use Rattle.std.specs.Prelude.{◌≡◌, IfOk};
ghost use Rattle.ns_run_outcome.specs.Styled as spec;

use crate::report::Report;
use crate::stop::{Stop, or_stop};
use ns_base::no_memory::NoMemory;
use ns_base::text::Text;
use ns_json::json::json_of;
use std::alloc::Global;

/// The report in JSON, where that is asked for: one line in place of all that it writes.
pub fn styled(alloc: Global, json: bool, made: Result<Report, Stop>) -> Result<Report, Stop>
    ensures { spec.IsStyled json made result }
{
    match made {
        Err(stop) => Err(stop),
        Ok(report) => {
            if json {
                or_stop(in_json(alloc, report))
            } else {
                Ok(report)
            }
        }
    }
}

/// The report in JSON. One that isn't told in parts stays as it is.
fn in_json(alloc: Global, report: Report) -> Result<Report, NoMemory>
    ensures { IfOk result (λ r. r ≡ spec.in_json report report.said) }
{
    let line = match &report.said {
        None => return Ok(report),
        Some(said) => json_of(alloc, said)?,
    };
    Ok(Report {
        out: line,
        err: Text::from_vec(Vec::new(alloc)),
        ..report
    })
}
