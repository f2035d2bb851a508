//! Why nothing is told of the actors of a program.

use ns_gen_code::size::SizeKind;

/// A size of the program's code passes its limit, or no memory was found.
#[derive(Clone, Copy)]
pub enum PlayFault {
    TooLarge(SizeKind),
    Memory,
}
