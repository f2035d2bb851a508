//! What a class declares, with its names as texts.

use ns_base::items::Items;
use ns_base::text::Text;
use ns_tree::tree::Access;
use std::marker::Model;

/// A class without those in it: its name, the class around it, its factory's selector and how many
/// parameters this has, the bodies of its clause and of its initialiser, the message that
/// initialises the superclass part, and its members.
#[derive(Drop)]
pub struct Declaration {
    pub name: Text,
    pub outer: Option<u32>,
    pub factory: Text,
    pub params: u8,
    pub clause: Option<u32>,
    pub initialiser: u32,
    pub super_selector: Text,
    pub slots: Items<SlotOf>,
    pub nested: Items<NestedOf>,
    pub methods: Items<MethodOf>,
    pub side_methods: Items<MethodOf>,
}

impl Model for Declaration {
    ghost use Rattle.ns_resolved.specs.Program as m;

    ghost Value = { m.Declaration };

    ghost view = { λ d. record {
      name = d.name;
      outer = d.outer;
      factory = d.factory;
      params = d.params;
      clause = d.clause;
      initialiser = d.initialiser;
      super_selector = d.super_selector;
      slots = d.slots;
      nested = d.nested;
      methods = d.methods;
      side_methods = d.side_methods;
    } };
}

/// A slot, and whether it has a setter.
#[derive(Drop)]
pub struct SlotOf {
    pub name: Text,
    pub access: Access,
    pub mutable: bool,
}

impl Model for SlotOf {
    ghost use Rattle.ns_resolved.specs.Program as m;

    ghost Value = { m.Slot };

    ghost view = { λ s. record { name = s.name; access = s.access; mutable = s.mutable } };
}

/// A nested class, by its number.
#[derive(Drop)]
pub struct NestedOf {
    pub class: u32,
    pub access: Access,
}

impl Model for NestedOf {
    ghost use Rattle.ns_resolved.specs.Program as m;

    ghost Value = { m.Nested };

    ghost view = { λ n. record { class = n.class; access = n.access } };
}

/// A method, by the number of its body.
#[derive(Drop)]
pub struct MethodOf {
    pub selector: Text,
    pub access: Access,
    pub body: u32,
}

impl Model for MethodOf {
    ghost use Rattle.ns_resolved.specs.Program as m;

    ghost Value = { m.Method };

    ghost view = { λ n. record { selector = n.selector; access = n.access; body = n.body } };
}
