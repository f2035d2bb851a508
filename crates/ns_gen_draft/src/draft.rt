//! Lines of code whose selectors have numbers.

ghost use Rattle.std.specs.Prelude.{◌≡◌};
ghost use Rattle.ns_gen_draft.specs.Drafts.{instruction, send, draft_place};

use ns_base::place::Place;
use ns_base::selector::Sel;
use ns_code::instruction::Instr;

/// How a send finds its method.
#[derive(Clone, Copy)]
pub enum SendWay {
    Plain,
    Inner,
    PrivateAt(u8),
    Super,
}

/// A line of code.
#[derive(Clone, Copy)]
pub enum Draft {
    Does(Instr),
    Symbol(Sel),
    Sends {
        way: SendWay,
        sel: Sel,
        place: Place,
        argc: u8,
    },
    Starts {
        place: Place,
        argc: u8,
    },
}

impl Draft {
    /// Its instruction.
    pub fn instruction(self) -> Instr
        ensures { result ≡ instruction self }
    {
        match self {
            Draft::Does(instr) => instr,
            Draft::Symbol(sel) => Instr::PushSym(sel),
            Draft::Sends {
                way,
                sel,
                place: _,
                argc,
            } => way.send(sel, argc),
            Draft::Starts { place: _, argc } => Instr::InitSuper(argc),
        }
    }

    /// Its place, if it has one.
    pub fn place(self) -> Option<Place>
        ensures { result ≡ draft_place self }
    {
        match self {
            Draft::Sends { place, .. } | Draft::Starts { place, .. } => Some(place),
            Draft::Does(_) | Draft::Symbol(_) => None,
        }
    }
}

impl SendWay {
    /// A send in this way.
    fn send(self, sel: Sel, argc: u8) -> Instr
        ensures { result ≡ send self sel argc }
    {
        match self {
            SendWay::Plain => Instr::Send { sel, argc },
            SendWay::Inner => Instr::SendInner { sel, argc },
            SendWay::PrivateAt(level) => Instr::SendPrivate { level, sel, argc },
            SendWay::Super => Instr::SendSuper { sel, argc },
        }
    }
}
