//! Where a lookup starts, and the names of classes.

use crate::kernel_class::KernelRow;

/// Where a lookup starts: at the instance side of a class, at the class side of one, with its
/// factory or without, or at the rows of a kernel class.
#[derive(Clone, Copy, PartialEq, Eq)]
pub enum Start {
    Instance(u32),
    ClassSide { class: u32, factory: bool },
    Kernel(KernelRow),
}

/// Names the class of a receiver: an instance of that declaration, a class object of it, or a
/// kernel value.
#[derive(Clone, Copy)]
pub enum ClassName {
    Declared(u32),
    ClassOf(u32),
    Kernel(KernelRow),
}

/// The number of no class, which stands for the chain without declared classes.
pub const NO_CLASS: u32 = 4_294_967_295;
