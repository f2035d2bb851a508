//! Where a step by the quick way leads.

ghost use Rattle.std.specs.Prelude.{◌≡◌};
ghost use Rattle.ns_machine_core.specs.Tried as spec;

use ns_machine_frames::registers::Registers;

/// Straight on: the body that runs stays on top, and no step was charged. Charged: it stays on top too, and one step was.
/// On, with the frame that is topmost then. Answered: on too, where a method of the kernel that was sent for has answered at
/// once, or has ended with the block that it evaluated, which are two moves. Or nowhere: nothing was done.
#[derive(Clone, Copy)]
pub enum Led {
    Straight(Registers),
    Charged(Registers),
    On(Registers),
    Answered(Registers),
    Nowhere,
}

/// Where a step leads that goes straight on, if it was done.
#[inline(always)]
pub fn led_straight(done: Option<Registers>) -> Led
    ensures { result ≡ spec.led_straight done }
{
    match done {
        Some(to) => Led::Straight(to),
        None => Led::Nowhere,
    }
}

/// Where a step leads that goes straight on with one step charged, if it was done.
#[inline(always)]
pub fn led_charged(done: Option<Registers>) -> Led
    ensures { result ≡ spec.led_charged done }
{
    match done {
        Some(to) => Led::Charged(to),
        None => Led::Nowhere,
    }
}

/// Where a step leads that goes on with the topmost frame, if it was done.
#[inline(always)]
pub fn led_on(done: Option<Registers>) -> Led
    ensures { result ≡ spec.led_on done }
{
    match done {
        Some(to) => Led::On(to),
        None => Led::Nowhere,
    }
}
