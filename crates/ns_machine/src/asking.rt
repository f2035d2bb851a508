//! Sends of a host by the name of a selector, which are made where they may be. A host needs no proof for them.

ghost use Rattle.std.specs.Prelude.{◌≡◌, ◌↔◌, ◌≤◌, length, Contains, SomeIff, IsSome, IsNone, IfSome};
ghost use Rattle.ns_code.specs.Selector.{name_number};
ghost use Rattle.ns_facets.specs.declared.row.Grants.{Grants};
ghost use Rattle.ns_machine_alike.specs.Isolated.{ComesToTheSame};
ghost use Rattle.ns_moves.specs.Beginning.{MayBegin};
ghost use Rattle.ns_moves.specs.Living.{KeepsLive};
ghost use Rattle.ns_moves.specs.Starts.{begun};
ghost use Rattle.ns_moves.specs.State.{world_of};
ghost use Rattle.ns_machine_reach.specs.Reached.{StaysInReach};
ghost use Rattle.ns_machine_report.specs.Ending.{IsLiveEnding};
ghost use Rattle.ns_machine.specs.Asking.{HasSelector, MayAsk, named};
ghost use Rattle.ns_machine.specs.Turning.{Ran};

use crate::living::{are_live, is_live};
use crate::machine::Machine;
use ns_base::selector::Sel;
use ns_base::text::Text;
use ns_code::program::CodeProgram;
use ns_code::selector::text_arity;
use ns_world::ending::Ending;
use ns_world::value::Value;

/// The most arguments of a send.
const MOST_ARGUMENTS: usize = 255;

impl Machine {
    /// Sends a name with arguments to a value, up to the end of that run, which the limit on steps bounds. None comes exactly
    /// where this may not be asked: the last run goes on or hasn't ended with a value, the receiver or an argument isn't live,
    /// or the code has no such name, or one that takes another number of arguments, or they are more than 255. Then nothing
    /// has changed. A value that the ending has can be asked and handed on, and so can all values that were live before.
    pub fn ask(&mut self, receiver: Value, name: &[u8], arguments: &[Value]) -> Option<Ending>
        ensures asked { IsSome result ↔ MayAsk self.old.code self.old.state receiver name.now arguments.now }
        ensures none { IsNone result → self.new ≡ self.old }
        ensures ran { IfSome result (λ ending.
            Ran self.old.code (begun receiver (named self.old.code name.now) arguments.now self.old.state) ending self.new.state) }
        ensures reach { IsSome result → StaysInReach (begun receiver (named self.old.code name.now) arguments.now
            self.old.state) self.new.state }
        ensures alike { IsSome result → (grants : Grants) →
            ComesToTheSame self.old.code grants receiver (named self.old.code name.now) arguments.now self.old.state self.new.state }
        ensures live { IfSome result (λ ending. IsLiveEnding (world_of self.new.state).cells self.old.code ending) }
        ensures keeps_live { KeepsLive self.old.code self.old.state self.new.state }
        ensures rest { self.new ≡ record self.old { state = self.new.state } }
    {
        match self.may_ask(receiver, name, arguments) {
            Some(sel) => Some(self.send(receiver, sel, arguments)),
            None => None,
        }
    }

    /// The selector of a name, where it may be asked: with it, `begin` and `send` can be called.
    pub fn may_ask(&self, receiver: Value, name: &[u8], arguments: &[Value]) -> Option<Sel>
        ensures may { SomeIff result (MayAsk self.now.code self.now.state receiver name.now arguments.now) (named self.now.code name.now) }
        ensures begins { IfSome result (λ sel. MayBegin self.now.code receiver sel arguments.now self.now.state) }
    {
        if !self.idle() {
            return None;
        }
        if !is_live(self.world(), self.code(), receiver) {
            return None;
        }
        if !are_live(self.world(), self.code(), arguments) {
            return None;
        }
        selector_for(self.code(), name, arguments.len())
    }
}

/// The selector of a name that takes so many arguments.
fn selector_for(code: &CodeProgram, name: &[u8], count: usize) -> Option<Sel>
    requires { length code.now.names ≤ 65536 }
    ensures { SomeIff result (HasSelector code.now name.now count) (named code.now name.now) }
{
    if MOST_ARGUMENTS < count {
        return None;
    }
    if text_arity(name) != count {
        return None;
    }
    selector_named(code.names.as_slice(), name)
}

/// The selector of a name among these.
fn selector_named(names: &[Text], name: &[u8]) -> Option<Sel>
    requires { length names.now ≤ 65536 }
    ensures { SomeIff result (Contains names.now name.now) (record { 0 = name_number names.now 0 name.now (length names.now) }) }
{
    let number = name_number(names, name);
    if (number as usize) < names.len() {
        Some(Sel(number))
    } else {
        None
    }
}

/// The number of the first name of that text, or how many names there are where none is.
fn name_number(names: &[Text], text: &[u8]) -> u32
    requires { length names.now ≤ 65536 }
    ensures { result ≡ name_number names.now 0 text.now (length names.now) }
{
    let mut number: u32 = 0;
    'names: for name in names {
        if name.bytes() == text {
            return number;
        }
        number += 1;
    }
    number
}
