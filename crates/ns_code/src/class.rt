//! What the code keeps of a class declaration.

use ns_base::items::Items;
use ns_base::selector::Sel;

/// A class declaration. `outer` is the declaration around it, `params` counts the parameters of
/// its factory, and `super_sel` is the message that initialises the superclass part.
#[derive(Drop)]
pub struct ClassCode {
    pub name: Sel,
    pub outer: Option<u32>,
    pub factory: Sel,
    pub params: u8,
    pub clause: Option<u32>,
    pub init: u32,
    pub super_sel: Sel,
    pub slots: Items<SlotCode>,
    pub nested: Items<NestedCode>,
    pub methods: Items<MethodCode>,
    pub side_methods: Items<MethodCode>,
}

/// A slot. Access is 0 for public, 1 for protected and 2 for private, here and below.
#[derive(Clone, Copy)]
pub struct SlotCode {
    pub name: Sel,
    pub access: u8,
    pub mutable: bool,
}

/// A nested class, by the number of its declaration.
#[derive(Clone, Copy)]
pub struct NestedCode {
    pub class: u32,
    pub access: u8,
}

/// A method, by the number of its body.
#[derive(Clone, Copy)]
pub struct MethodCode {
    pub sel: Sel,
    pub access: u8,
    pub body: u32,
}
