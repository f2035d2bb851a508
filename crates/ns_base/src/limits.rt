//! The limits of a run.

ghost use Rattle.std.specs.Prelude.{◌↔◌, IsTrue};
ghost use Rattle.ns_base.specs.Limits.{InRange, IsFrom1To};

/// How much a run may use: steps, heap cells, live frames, and bytes of output. A function that
/// takes limits asks that they are in range, which `Limits::are_in_range` tells.
#[derive(Clone, Copy)]
pub struct Limits {
    pub steps: u64,
    pub cells: u64,
    pub depth: u64,
    pub out: u64,
}

impl Limits {
    /// The limits of a command that names none.
    pub const DEFAULT: Limits = Limits {
        steps: 10_000_000,
        cells: 4_000_000,
        depth: 10_000,
        out: 1_048_576,
    };

    /// The greatest of each limit. The least of each is 1.
    pub const GREATEST: Limits = Limits {
        steps: 1_000_000_000_000,
        cells: 64_000_000,
        depth: 100_000,
        out: 16_777_216,
    };

    /// Whether each limit is within its range.
    pub fn are_in_range(&self) -> bool
        ensures { IsTrue result ↔ InRange self.now }
    {
        is_from_1_to(self.steps, Limits::GREATEST.steps)
            && is_from_1_to(self.cells, Limits::GREATEST.cells)
            && is_from_1_to(self.depth, Limits::GREATEST.depth)
            && is_from_1_to(self.out, Limits::GREATEST.out)
    }
}

fn is_from_1_to(limit: u64, greatest: u64) -> bool
    ensures { IsTrue result ↔ IsFrom1To limit greatest }
{
    1 <= limit && limit <= greatest
}
