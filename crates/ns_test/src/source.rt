//! The tests of a program without static faults.

ghost use Rattle.std.specs.Prelude.{option_map};
ghost use Rattle.ns_base.specs.Limits.{InRange};
ghost use Rattle.ns_resolved.specs.Classes.{meant};
ghost use Rattle.ns_test.specs.Source as spec;
ghost use Rattle.ns_test.specs.Stated.{Tells};

use crate::report::{TestFault, TestReport};
use crate::tests::run_tests;
use ns_base::limits::Limits;
use ns_link::compile::compile;
use ns_link::fault::LinkFault;
use ns_static::check::Checked;
use std::alloc::Global;

/// The tests of a program within these limits, as `run_tests` has them, where none of its sizes passes its limit. Its code is
/// made once.
pub fn test_source(
    alloc: Global,
    checked: &Checked,
    limits: Limits,
    reversed: bool,
    only: Option<&[u8]>,
) -> Result<TestReport, TestFault>
    requires { InRange limits }
    ensures { Tells (spec.source_tested (meant checked.now) limits reversed (option_map (λ name. name.now) only.entry)) result }
{
    match compile(alloc, checked) {
        Ok(code) => {
            let told = run_tests(alloc, &code, limits, reversed, only);
            drop(code);
            told
        }
        Err(LinkFault::TooLarge(kind)) => Err(TestFault::TooLarge(kind)),
        Err(LinkFault::Memory) => Err(TestFault::Memory),
    }
}
