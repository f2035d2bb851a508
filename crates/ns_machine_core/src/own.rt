//! What a machine sends by itself.

use ns_base::selector::Sel;

/// The numbers of the selectors that a machine sends by itself, and the number of the place of the opening sends among
/// the places of a machine, or one behind their end where they have none.
#[derive(Clone, Copy)]
pub struct OwnSends {
    pub package_using: Sel,
    pub main_args: Sel,
    pub does_not_understand: Sel,
    pub opening: u32,
}
