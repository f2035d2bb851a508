//! Why a program without static faults gets no code.

use ns_gen_code::size::SizeKind;

/// A size of its code passes its limit, or there is no memory.
#[derive(Clone, Copy)]
pub enum LinkFault {
    TooLarge(SizeKind),
    Memory,
}
