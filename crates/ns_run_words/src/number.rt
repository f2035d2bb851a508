//! Numbers and selectors among the words of a command line.

ghost use Rattle.std.specs.Prelude.{◌≡◌, ◌≤◌, IfSome, Some, ℕ, ℤ, option_and_then, option_map, pos, neg_ℤ};
ghost use Rattle.ns_run_words.specs.Words as spec;

use ns_base::spelled::is_selector;
use ns_base::spelling::is_digit;
use ns_code::selector::text_arity;

/// The greatest integer of 64 bits, and the size of the least.
const GREATEST: u64 = 9_223_372_036_854_775_807;

const LEAST: u64 = 9_223_372_036_854_775_808;

/// The most steps that a line names.
const MOST_STEPS: u64 = 1_000_000_000_000;

/// The decimal number without a leading zero, from 1 to the greatest.
pub fn number(greatest: u64, text: &[u8]) -> Option<u64>
    requires { greatest ≤ 9223372036854775808 }
    ensures is { result ≡ spec.number_of greatest text.now }
    ensures range { IfSome result (λ n. (1 ≤ n) × (n ≤ greatest)) }
{
    if begins_bad(text) {
        None
    } else {
        value(greatest, text)
    }
}

fn begins_bad(text: &[u8]) -> bool
    ensures { result ≡ spec.begins_bad text.now }
{
    text.is_empty() || text[0] == b'0'
}

/// The value of digits, from 1 to the greatest. What is a digit short of 64 bits is too much with a digit more.
fn value(greatest: u64, text: &[u8]) -> Option<u64>
    requires { greatest ≤ 9223372036854775808 }
    ensures is { result ≡ option_and_then (spec.in_range greatest) (spec.value_from 0 text.now) }
    ensures range { IfSome result (λ n. (1 ≤ n) × (n ≤ greatest)) }
{
    let mut n: u64 = 0;
    for b in text {
        if !is_digit(*b) {
            return None;
        }
        if 922_337_203_685_477_580 < n {
            return None;
        }
        n = n * 10 + (*b - b'0') as u64;
    }
    if 1 <= n && n <= greatest {
        Some(n)
    } else {
        None
    }
}

/// The number of steps that a text is: 0, or one from 1 on.
pub fn steps(text: &[u8]) -> Option<u64>
    ensures is { result ≡ spec.steps_of text.now }
    ensures few { IfSome result (λ n. n ≤ 1000000000000) }
{
    if text == b"0".as_slice() {
        Some(0)
    } else {
        number(MOST_STEPS, text)
    }
}

/// The integer of 64 bits that a text is: a number without a leading zero, with a dash in front of a negative one.
pub fn integer(text: &[u8]) -> Option<i64>
    ensures { result ≡ spec.integer_of text.now }
{
    match text {
        [] => None,
        [first, size @ ..] => {
            if *first == b'-' {
                negative(number(LEAST, size))
            } else {
                natural(text)
            }
        }
    }
}

/// The integer that a text is which begins with no dash.
fn natural(text: &[u8]) -> Option<i64>
    ensures { result ≡ spec.natural_of text.now }
{
    if text == b"0".as_slice() {
        Some(0)
    } else {
        positive(number(GREATEST, text))
    }
}

/// A positive integer, if its size is there.
fn positive(size: Option<u64>) -> Option<i64>
    requires { IfSome size (λ n. n ≤ 9223372036854775807) }
    ensures { result ≡ option_map pos size }
{
    match size {
        Some(n) => Some(n as i64),
        None => None,
    }
}

/// A negative integer, if its size is there.
fn negative(size: Option<u64>) -> Option<i64>
    requires { IfSome size (λ n. n ≤ 9223372036854775808) }
    ensures { result ≡ option_map (λ (n : ℕ). neg_ℤ (pos n)) size }
{
    match size {
        Some(n) => Some(below_zero(n)),
        None => None,
    }
}

/// The negative integer of a size.
fn below_zero(size: u64) -> i64
    requires { size ≤ 9223372036854775808 }
    ensures { result ≡ neg_ℤ (pos size) }
{
    if size == LEAST {
        return i64::MIN;
    }
    -(size as i64)
}

/// Whether a text is a selector of one argument.
pub fn takes_one(text: &[u8]) -> bool
    ensures { result ≡ spec.takes_one text.now }
{
    is_selector(text) && text_arity(text) == 1
}
