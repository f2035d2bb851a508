//! Where the running frame stands.

/// The number of the next instruction, the end of the values in use, and where the locals of the topmost frame begin. A
/// turn keeps them in local variables, so they are handed over and given back by value.
#[derive(Clone, Copy)]
pub struct Registers {
    pub next: u32,
    pub top: u32,
    pub base: u32,
}
