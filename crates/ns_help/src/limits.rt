//! What the limits of a run mean.

ghost use Rattle.std.specs.Prelude.{◌≡◌, option_map};
ghost use Rattle.ns_help.specs.Topics as spec;

/// What `steps` means.
pub const STEPS: &str =
    "steps: the run sent more messages than `--steps` allows (10,000,000 where none
is said), or it doesn't end.
";

/// What `cells` means.
pub const CELLS: &str =
    "cells: what the run made needs more cells than `--cells` allows (4,000,000).
Nothing is ever given back: a text that grows by `,` a byte at a time takes as
many cells as its square by 16, a block three in each turn of a loop that
makes it.
";

/// What `depth` means.
pub const DEPTH: &str =
    "depth: more than `--depth` calls are open (10,000): mostly a method that calls
itself without end.
";

/// What `out` means.
pub const OUT: &str = "out: more output than `--out` allows (1,048,576 bytes).
";

/// What is told of a limit of a run, if the word is one.
pub fn limits_text(word: &[u8]) -> Option<&'static str>
    ensures { option_map (λ text. text.now) result ≡ spec.found word.now spec.limits }
{
    if word == b"steps".as_slice() {
        return Some(STEPS);
    }
    if word == b"cells".as_slice() {
        return Some(CELLS);
    }
    if word == b"depth".as_slice() {
        return Some(DEPTH);
    }
    if word == b"out".as_slice() {
        return Some(OUT);
    }
    None
}
