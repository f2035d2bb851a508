//! Division that rounds down, as the language has it. The processor's rounds toward zero.

ghost use Rattle.std.specs.Prelude.{◌≡◌, SomeIff, FitsSigned};
ghost use Rattle.std.specs.Int.{w64, IsNonZero};
ghost use Rattle.ns_kint.specs.Division.{floored_quotient, floored_remainder, signs_differ};

/// The quotient, rounded down, where it is an Integer.
pub fn floored_quotient(left: i64, right: i64) -> Option<i64>
    requires { IsNonZero w64 right }
    ensures { SomeIff result (FitsSigned w64 (floored_quotient left right)) (floored_quotient left right) }
{
    let quotient = left.checked_div(right)?;
    if signs_differ(left.wrapping_rem(right), right) {
        quotient.checked_sub(1)
    } else {
        Some(quotient)
    }
}

/// What that quotient leaves of the dividend, with the sign of the divisor.
pub fn floored_remainder(left: i64, right: i64) -> i64
    requires { IsNonZero w64 right }
    ensures { result ≡ floored_remainder left right }
{
    let rest = left.wrapping_rem(right);
    if signs_differ(rest, right) {
        rest + right
    } else {
        rest
    }
}

/// Whether one number is above zero and the other below.
fn signs_differ(one: i64, other: i64) -> bool
    ensures { result ≡ signs_differ one other }
{
    (one < 0 && 0 < other) || (other < 0 && 0 < one)
}
