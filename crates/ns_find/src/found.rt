//! What a lookup asks for and what it finds.

/// How a send reaches: a plain send reaches public members alone, any other protected ones too.
#[derive(Clone, Copy, PartialEq, Eq)]
pub enum Sending {
    Plain,
    Inner,
}

/// What a lookup finds: a member with its holder, a factory of a class, a row of the kernel by its
/// number, a protected member that a plain send meets, or nothing. The word of a getter and a
/// setter is that of the object; the class of a nested class is its declaration.
#[derive(Clone, Copy, PartialEq, Eq)]
pub enum Found {
    Method { body: u32, holder: u32 },
    Getter { holder: u32, word: u32 },
    Setter { holder: u32, word: u32 },
    Nested { class: u32, holder: u32 },
    Factory { class: u32 },
    Kernel(u32),
    NotPublic,
    Absent,
}
