//! Bodies, as the machine asks for them.

/// What the machine asks of a body: its declaration; how many parameters it has, and how many parameters and locals;
/// whether these stand in an environment, and else how many stand beside it; how many operands it has at most; whether
/// it stands on the class side; its kind; the body in which it stands; and the body whose locals its environment has,
/// its own or the one around it.
#[derive(Clone, Copy)]
pub struct Row {
    pub class: u32,
    pub params: u8,
    pub locals: u8,
    pub environment: bool,
    pub beside: u8,
    pub height: u16,
    pub class_side: bool,
    pub kind: u8,
    pub parent: Option<u32>,
    pub around: Option<u32>,
}
