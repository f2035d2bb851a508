//! How a command ends.

ghost use Rattle.std.specs.Prelude.{◌≡◌};
ghost use Rattle.ns_base.specs.Status.{exit_code};

/// How a command ended. In the order written, these are the exit statuses 0 to 6.
#[derive(Clone, Copy)]
pub enum Status {
    /// The command did what it was asked to.
    Done,
    /// A run ended in an error of its program.
    ProgramError,
    /// The words, a file or an image were refused.
    Refused,
    /// A run ended at one of its limits.
    Limit,
    /// A file could not be read.
    ReadFault,
    /// A stream or a file could not be written.
    WriteFault,
    /// No memory was found.
    Memory,
}

impl Status {
    /// The exit status of the process, from 0 to 6.
    pub fn exit_code(self) -> u8
        ensures { result ≡ exit_code self }
    {
        self as u8
    }
}
