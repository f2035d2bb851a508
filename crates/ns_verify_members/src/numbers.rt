//! Numbers in order.

ghost use Rattle.std.specs.Prelude.{◌≡◌, None, IfOk, nat_eq};
ghost use Rattle.std.specs.List.{list_any};
ghost use Rattle.std.specs.List.Sorted.{IsNonDecreasing, IsPermutation};
ghost use Rattle.ns_verify_members.specs.Numbers.{are_apart, have_no_twins, is_last};

use ns_base::no_memory::NoMemory;
use std::marker::Model;

/// Numbers in order, some of which may be equal. A clause sees their list.
#[derive(Drop)]
pub struct Numbers {
    all: Vec<u32>,
}

impl Model for Numbers {
    ghost use Rattle.std.specs.Prelude.{List, ℕ};
    ghost use Rattle.std.specs.List.Sorted.{IsNonDecreasing};

    ghost Value = { List ℕ };

    ghost view = { λ numbers. numbers.all.items };

    ghost invariant = { λ numbers. IsNonDecreasing numbers.all.items };
}

impl Numbers {
    /// Some numbers, put in order.
    pub fn of(numbers: Vec<u32>) -> Result<Numbers, NoMemory>
        ensures { IfOk result (λ sorted. IsPermutation numbers.items sorted) }
    {
        let mut all = numbers;
        all.sort()?;
        Ok(Numbers { all })
    }

    /// Whether a number is among them.
    pub fn has(&self, number: u32) -> bool
        ensures { result ≡ list_any (nat_eq number) self.now }
    {
        is_in(self.all.as_slice(), number)
    }

    /// Whether none of them comes twice.
    #[tactic(auto, using(crate::proofs::Sorted::twins_apart))]
    fn are_apart(&self) -> bool
        ensures { result ≡ are_apart self.now }
    {
        have_no_twins(self.all.as_slice())
    }
}

/// Whether none of some numbers comes twice.
#[tactic(auto, using(crate::proofs::Apart::apart_permuted))]
pub fn are_apart(numbers: Vec<u32>) -> Result<bool, NoMemory>
    ensures { IfOk result (λ apart. apart ≡ are_apart numbers.items) }
{
    let sorted = Numbers::of(numbers)?;
    Ok(sorted.are_apart())
}

/// Whether a number is among some that are in order.
fn is_in(numbers: &[u32], number: u32) -> bool
    requires { IsNonDecreasing numbers.now }
    ensures { result ≡ list_any (nat_eq number) numbers.now }
{
    numbers.binary_search(&number).is_ok()
}

/// Whether no number is the one before it.
fn have_no_twins(numbers: &[u32]) -> bool
    ensures { result ≡ have_no_twins None numbers.now }
{
    let mut last = None;
    'numbers: for number in numbers {
        if is_last(last, *number) {
            return false;
        }
        last = Some(*number);
    }
    true
}

/// Whether a number is the last one, if there is any.
fn is_last(last: Option<u32>, number: u32) -> bool
    ensures { result ≡ is_last last number }
{
    match last {
        Some(last) => last == number,
        None => false,
    }
}
