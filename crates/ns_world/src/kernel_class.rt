//! Names of the kernel's classes.

/// The classes whose instances and class objects the kernel answers for, in the order of its
/// table of rows.
#[derive(Clone, Copy, PartialEq, Eq)]
pub enum KernelRow {
    Object,
    ObjectClass,
    ArrayClass,
    Class,
    UndefinedObject,
    Boolean,
    Integer,
    String,
    Symbol,
    Array,
    Block,
    Manifest,
    Platform,
    Kernel,
    Console,
    Board,
    Mirrors,
    Mirror,
    Message,
}
