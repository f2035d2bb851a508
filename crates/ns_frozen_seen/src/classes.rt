//! Classes, their chains, what has a holder in its chain, and what is nested in what.

ghost use Rattle.std.specs.Prelude.{◌≡◌, ◌==◌, true, Some, option_map, if◌then◌else◌};
ghost use Rattle.std.specs.List.{list_any};
ghost use Rattle.ns_code.specs.Soundness.{instance_side};
ghost use Rattle.ns_code.specs.declared.class.NestedCode.{NestedCode as NestedOf};
ghost use Rattle.ns_world.specs.declared.value.Value.{Value as ValueOf};
ghost use Rattle.ns_world.specs.Heap as heap;
ghost use Rattle.ns_world.specs.Layout as layout;
ghost use Rattle.ns_frozen.specs.declared.cell.CellData.TheVariants as cells;
ghost use Rattle.ns_frozen.specs.Frames.{has_nested};
ghost use Rattle.ns_frozen.specs.Freezing.{cell_frozen};
ghost use Rattle.ns_frozen.specs.Live as live;
ghost use Rattle.ns_frozen_tables.specs.Chain.{links_before};
ghost use Rattle.ns_frozen_seen.specs.Seen.{IsSeen, heap_of};

use crate::seen::Seen;
use ns_code::body::BodyCode;
use ns_code::class::NestedCode;
use ns_code::kinds::INSTANCES;
use ns_frozen_tables::chain::next_links;
use ns_frozen_tables::kinds::{class_of, declaration, is_class, superclass};
use ns_frozen_tables::nested::is_known_nested;
use ns_world::kernel::NO_CLASS;
use ns_world::value::Value;

impl Seen<'_> {
    /// Whether a cell is a class.
    #[tactic(auto, using(crate::proofs::Asked::classes))]
    pub fn is_class(&self, class: u32) -> bool
        requires { IsSeen self.now }
        ensures { result ≡ heap.is_class (heap.find_cell (heap_of self.now) class) }
    {
        is_class(self.find(class))
    }

    /// The declaration of a class, 0 where the cell is none.
    #[tactic(auto, using(crate::proofs::Asked::declarations))]
    pub fn declaration(&self, class: u32) -> u32
        requires { IsSeen self.now }
        ensures { result ≡ layout.declaration_of (heap_of self.now) class }
    {
        declaration(self.find(class))
    }

    /// The number of the superclass of a class, where it is declared.
    #[tactic(auto, using(crate::proofs::Asked::superclasses))]
    pub fn superclass(&self, class: u32) -> u32
        requires { IsSeen self.now }
        ensures { result ≡ heap.superclass_of (heap_of self.now) class }
    {
        declared_class(superclass(self.find(class)))
    }

    /// How many links the chain of a superclass has, where that was made before the class.
    fn links_before(&self, number: u128, over: Value) -> u32
        requires { IsSeen self.now }
        ensures { result ≡ links_before self.now.code.now (heap_of self.now) number over }
    {
        match over {
            Value::Ref(class) => {
                if u128::from(class) < number {
                    self.links(class)
                } else {
                    0
                }
            }
            _ => 0,
        }
    }

    /// Whether a class has a chain: by its own declaration and superclass where its number is behind the last that a reference can
    /// name.
    pub fn has_links(&self, number: u128, decl: u32, over: Value) -> bool
        requires { IsSeen self.now }
        ensures { (encl holder : ValueOf) → option_map cell_frozen (heap.find_cell (heap_of self.now) number) ≡ Some (cells.Class decl encl holder over) →
            result ≡ live.has_chain self.now.code.now (heap_of self.now) number }
    {
        if number <= u128::from(u32::MAX) {
            return self.has_chain(number as u32);
        }
        next_links(self.code, decl, over, self.links_before(number, over)) != 0
    }

    /// Whether a class is a nested one of a declaration.
    #[tactic(auto, using(crate::proofs::Found::nested_known))]
    pub fn has_nested(&self, decl: u32, class: u32) -> bool
        requires { IsSeen self.now }
        ensures { result ≡ has_nested self.now.code.now decl class }
    {
        if is_known_nested(self.outers.as_slice(), class, decl) {
            return true;
        }
        match self.code.classes.as_slice().get(decl as usize) {
            Some(declared) => is_among(class, declared.nested.as_slice()),
            None => false,
        }
    }

    /// Whether a class stands in the chain of another, which has one.
    pub fn is_in_chain(&self, class: u32, holder: u32) -> bool
        requires { IsSeen self.now }
        ensures { result ≡ live.is_in_chain self.now.code.now (heap_of self.now) class holder }
    {
        self.has_chain(class) && self.is_above(class, holder)
    }

    /// The same of a class that has a chain. Each class has a smaller number than the one below it. The walk begins as far up as is
    /// known.
    fn is_above(&self, class: u32, holder: u32) -> bool
        requires seen { IsSeen self.now }
        requires chain { live.has_chain self.now.code.now (heap_of self.now) class ≡ true }
        ensures { result ≡ list_any (λ above. above == holder) (heap.chain_of (heap_of self.now) class) }
    {
        let mut at = self.climbed(class, holder);
        'links: while holder < at {
            let above = self.superclass(at);
            if at <= above {
                return false;
            }
            at = above;
        }
        at == holder
    }

    /// Whether a cell is a class of that declaration.
    pub fn declares(&self, decl: u32, class: u32) -> bool
        requires { IsSeen self.now }
        ensures { result ≡ live.declares (heap_of self.now) decl class }
    {
        self.is_class(class) && self.declaration(class) == decl
    }

    /// Whether a value is an object with that holder in the chain of its class.
    pub fn has_holder(&self, holder: u32, value: Value) -> bool
        requires { IsSeen self.now }
        ensures { result ≡ live.has_holder self.now.code.now (heap_of self.now) holder value }
    {
        match value {
            Value::Ref(at) => self.is_object_of(holder, at),
            _ => false,
        }
    }

    /// Whether a cell is one.
    #[tactic(auto, using(crate::proofs::Asked::objects_of))]
    fn is_object_of(&self, holder: u32, at: u32) -> bool
        requires { IsSeen self.now }
        ensures { result ≡ live.is_object_of self.now.code.now (heap_of self.now) holder (heap.find_cell (heap_of self.now) at) }
    {
        match class_of(self.find(at)) {
            Some(class) => self.is_in_chain(class, holder),
            None => false,
        }
    }

    /// Whether a value is a class with that holder in its chain.
    pub fn is_class_of(&self, holder: u32, value: Value) -> bool
        requires { IsSeen self.now }
        ensures { result ≡ live.is_class_of self.now.code.now (heap_of self.now) holder value }
    {
        match value {
            Value::Ref(at) => self.is_class(at) && self.is_in_chain(at, holder),
            _ => false,
        }
    }

    /// Whether a self and a holder fit a body.
    pub fn fits_body(&self, body: &BodyCode, me: Value, holder: u32) -> bool
        requires { IsSeen self.now }
        ensures { result ≡ live.fits_body self.now.code.now (heap_of self.now) body.now me holder }
    {
        self.declares(body.class, holder) && self.fits_side(body.side, me, holder)
    }

    /// Whether a self has a holder, as the side of a body asks for.
    fn fits_side(&self, side: u8, me: Value, holder: u32) -> bool
        requires { IsSeen self.now }
        ensures { result ≡ (if side == instance_side then live.has_holder self.now.code.now (heap_of self.now) holder me
            else live.is_class_of self.now.code.now (heap_of self.now) holder me) }
    {
        if side == INSTANCES {
            self.has_holder(holder, me)
        } else {
            self.is_class_of(holder, me)
        }
    }
}

/// Whether a class is among nested ones.
fn is_among(class: u32, nested: &[NestedCode]) -> bool
    ensures { result ≡ list_any (λ (one : NestedOf). one.class == class) nested.now }
{
    nested.iter().any(|one| one.class == class)
}

/// The number of the class that a value refers to, and that of no class where it refers to none.
pub fn declared_class(value: Value) -> u32
    ensures { result ≡ heap.declared_class value }
{
    match value {
        Value::Ref(class) => class,
        _ => NO_CLASS,
    }
}
