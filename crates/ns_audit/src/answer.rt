//! What an audit answers.

/// What an audit says of a module: its code sends no denied selector; or the first instruction that sends one, by the
/// numbers of its body and of the instruction; or the first that sends `perform:with:`, which can send any.
#[derive(Clone, Copy)]
pub enum Audit {
    Yes,
    Sends { body: u32, at: u32 },
    Performs { body: u32, at: u32 },
}
