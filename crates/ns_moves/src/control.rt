//! What an action comes to, in the form in which a machine takes it: nothing is listed or copied.

use ns_base::selector::Sel;
use ns_kcode::state::KState;
use ns_world::ending::Fault;
use ns_world::kernel_parts::KMethod;
use ns_world::value::Value;

/// Which arguments go on: those of the send as they stand, the one Message of that number, which
/// was made of them, or the elements of the array of that number.
#[derive(Clone, Copy)]
pub enum Given {
    Listed,
    Message(u32),
    Items(u32),
}

/// What the value of a body is for: a method's send, the evaluation of a block or the send of a
/// factory, or the nested class of self and the holder that has that declaration.
#[derive(Clone, Copy)]
pub enum Exit {
    Method,
    Body,
    Clause { class: u32 },
}

/// A body that begins: self, the holder of its declaration, the body, the home to which its blocks
/// return, its environment or the one around it, and which arguments it has. Its locals stand in
/// its environment where the body has one, and else beside it: the arguments, and nils.
#[derive(Clone, Copy)]
pub struct Entered {
    pub me: Value,
    pub holder: u32,
    pub body: u32,
    pub home: u64,
    pub env: Value,
    pub given: Given,
}

/// Where control goes: on with a value; to the end of the run, by a fault at the site of the send
/// or by NotUnderstood with a Message's selector in that site; into a body; into a block whose
/// evaluation waits; into a method of the kernel that evaluates blocks; or into a send with the
/// elements of an array, which waits.
#[derive(Clone, Copy)]
pub enum Reached {
    Gives(Value),
    Fails(Fault),
    Refused(Sel),
    Enters {
        exit: Exit,
        entered: Entered,
    },
    Evaluates {
        block: Value,
        given: Given,
    },
    Begins {
        method: KMethod,
        state: KState,
    },
    Performs {
        receiver: Value,
        sel: Sel,
        array: u32,
    },
}

/// Where a superclass part goes: past it, for the kernel's Object; to the end of the run, by a
/// fault at the site of the factory's send; or into the initialiser of a declared superclass.
#[derive(Clone, Copy)]
pub enum PartReached {
    Skips,
    Fails(Fault),
    Enters(Entered),
}

/// What an action comes to that gives a value: the value, or a fault at its site.
pub type Answer = Result<Value, Fault>;
