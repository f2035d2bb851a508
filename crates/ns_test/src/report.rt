//! What is told of the tests of a program.

ghost use Rattle.std.specs.Prelude.{◌≡◌};

use ns_base::items::Items;
use ns_base::no_memory::NoMemory;
use ns_base::status::Status;
use ns_base::text::Text;
use ns_gen_code::size::SizeKind;
use ns_json::saying::{Run, Test};

/// How a test went: it answered a value other than false, it answered false, or it didn't come to its end.
#[derive(Clone, Copy)]
pub enum Verdict {
    Passed,
    Failed,
    Erred,
}

/// The lines of the tests, one for each, and the tests in parts; how many there are, and how many of each kind.
#[derive(Drop)]
pub struct TestReport {
    pub lines: Text,
    pub parts: Items<Test>,
    pub tests: usize,
    pub passed: usize,
    pub failed: usize,
    pub errors: usize,
}

/// Why there is no report: a size of the program's code passes its limit, which only `test_source` answers; the opening ended in
/// an error or a limit, of which its report line tells, and its run in parts; it answered no class of tests; no test has the name
/// that was asked for; or no memory was found.
#[derive(Drop)]
pub enum TestFault {
    TooLarge(SizeKind),
    Opening {
        line: Text,
        status: Status,
        part: Run,
    },
    NotTests,
    NoTest,
    Memory,
}

impl From<NoMemory> for TestFault {
    ghost use Rattle.ns_test.specs.declared.report.TestFault.TheVariants.{Memory};

    ghost from_gives = { λ _ e. e ≡ Memory };

    fn from(_error: NoMemory) -> TestFault {
        TestFault::Memory
    }
}
