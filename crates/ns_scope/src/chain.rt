//! Lists that share their tails.

ghost use Rattle.std.specs.Prelude.{◌≡◌, ◌<◌, ◌^◌, [], ◌∷◌, length, IfOk, IfSome, IfNone};

use ns_base::no_memory::NoMemory;
use std::alloc::Global;
use std::marker::Model;
use std::rc::Rc;

/// A list, innermost first. What stands further out is shared.
#[derive(Drop)]
pub struct Chain<T> {
    links: Rc<Link<T>>,
}

impl<T> Model for Chain<T> {
    ghost use Rattle.std.specs.Prelude.{List};

    ghost Value = { List T };

    ghost view = { λ chain. chain.links.value };
}

impl<T: Drop> Chain<T> {
    /// A list without items.
    pub fn end(alloc: Global) -> Result<Chain<T>, NoMemory>
        ensures { IfOk result (λ chain. chain ≡ []) }
    {
        let links = Link {
            len: 0,
            inside: None,
        };
        Ok(Chain {
            links: Rc::new(alloc, links)?,
        })
    }

    /// The list with an item before those of another, which it shares.
    pub fn inside(alloc: Global, item: T, outer: &Chain<T>) -> Result<Chain<T>, NoMemory>
        ensures { IfOk result (λ chain. chain ≡ item ∷ outer.now) }
    {
        Ok(Chain {
            links: Link::inside(alloc, item, &outer.links)?,
        })
    }

    /// The same, which shares all.
    pub fn share(&self) -> Result<Chain<T>, NoMemory>
        ensures { IfOk result (λ chain. chain ≡ self.now) }
    {
        Ok(Chain {
            links: self.links.clone()?,
        })
    }

    /// Its links.
    pub fn links(&self) -> &Link<T>
        ensures { result.now ≡ self.now }
    {
        &self.links
    }
}

/// What stands from one place of a list on: an item and what stands further out, or the end.
#[cycle(chain)]
#[derive(Drop)]
pub struct Link<T> {
    len: u32,
    inside: Option<(T, Rc<Link<T>>)>,
}

impl<T> Model for Link<T> {
    ghost use Rattle.std.specs.Prelude.{◌≡◌, ◌<◌, ◌^◌, List, length};
    ghost use Rattle.ns_scope.specs.Chains.{items};

    ghost Value = { List T };

    ghost view = { λ link. items link.inside };

    ghost invariant = { λ link. (link.len ≡ length (items link.inside)) × (length (items link.inside) < 2 ^ 32) };

    ghost size = { length };

    ghost use Rattle.std.proofs.Common.{arith};

    ghost size_decreases = { λ a h. Prim.grind (arith) };
}

impl<T: Drop> Link<T> {
    /// An item before what stands further out, which is shared.
    fn inside(alloc: Global, item: T, outer: &Rc<Link<T>>) -> Result<Rc<Link<T>>, NoMemory>
        ensures { IfOk result (λ link. link.value ≡ item ∷ outer.now.value) }
    {
        let Some(len) = outer.len.checked_add(1) else {
            return Err(NoMemory);
        };
        let outer = outer.clone()?;
        let inside = Some((item, outer));
        Ok(Rc::new(alloc, Link { len, inside })?)
    }

    /// The item, and what stands further out.
    pub fn split(&self) -> Option<(&T, &Link<T>)>
        ensures some { IfSome result (λ parts. self.now ≡ parts.0.now ∷ parts.1.now) }
        ensures none { IfNone result (self.now ≡ []) }
        ensures short { length self.now < 2 ^ 32 }
    {
        match &self.inside {
            None => None,
            Some((item, outer)) => Some((item, &**outer)),
        }
    }
}
