//! The moves of a replay, as words.

ghost use Rattle.std.specs.Prelude.{◌≡◌, ◌≤◌};
ghost use Rattle.ns_run_words.specs.Words as spec;

use crate::number::steps;

/// So many steps on; so many back, at most to the start; or to a step.
#[derive(Clone, Copy)]
pub enum Move {
    Forward(u64),
    Back(u64),
    To(u64),
}

/// Whether a word is a move: `+`, `-` or `=`, and a number of steps.
pub fn is_move(word: &[u8]) -> bool
    ensures { result ≡ spec.is_move word.now }
{
    match word {
        [] => false,
        [sign, rest @ ..] => is_sign(*sign) && steps(rest).is_some(),
    }
}

/// The move that a word is.
pub fn move_of(word: &[u8]) -> Move
    ensures is { result ≡ spec.move_of word.now }
    ensures few { spec.steps_in result ≤ 1000000000000 }
{
    match word {
        [] => Move::To(0),
        [sign, rest @ ..] => signed(*sign, steps(rest).unwrap_or(0)),
    }
}

/// Whether a byte is the sign of a move.
fn is_sign(byte: u8) -> bool
    ensures { result ≡ spec.is_sign byte }
{
    byte == b'+' || byte == b'-' || byte == b'='
}

/// The move of that sign and so many steps.
fn signed(sign: u8, steps: u64) -> Move
    ensures is { result ≡ spec.signed sign steps }
    ensures named { spec.steps_in result ≡ steps }
{
    match sign {
        b'+' => Move::Forward(steps),
        b'-' => Move::Back(steps),
        _ => Move::To(steps),
    }
}
