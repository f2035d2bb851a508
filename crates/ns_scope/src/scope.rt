//! Where code stands: the bodies and the declarations around it, and what is seen from there.

ghost use Rattle.std.specs.Prelude.{◌≡◌, [], ◌∷◌, IfOk, option_map};
ghost use Rattle.ns_tree.specs.PlainOf.{bars_of, class_of, pattern_of};
ghost use Rattle.ns_scope.specs.Scopes.{class_scope, clause_scope, initialiser_scope, method_scope, block_scope};
ghost use Rattle.ns_scope.specs.Resolve.{innermost, own_members, levels, member_or_self, resolve};

use crate::chain::{Chain, Link};
use crate::names::{Local, class_members, instance_members, locals, table_of};
use crate::resolve::{Target, innermost_local, innermost_member};
use crate::table::Table;
use ns_base::key::Key;
use ns_base::no_memory::NoMemory;
use ns_base::text::Text;
use ns_tree::tree::{Access, Class, Named, Pattern, Slot};
use std::alloc::Global;

/// The side of a declaration to which code belongs.
#[derive(Clone, Copy)]
pub enum CodeSide {
    Instance,
    Class,
}

/// A declaration: its name, and the members of each side.
#[derive(Drop)]
pub struct ClassScope {
    pub name: Text,
    pub instance: Table<Access>,
    pub class_side: Table<Access>,
}

/// What is seen from a body: what it and the bodies around it declare, innermost first; its side;
/// whether the outermost of these bodies is a method; and the declarations around it, innermost
/// first.
#[derive(Drop)]
pub struct Scope {
    pub bodies: Chain<Table<Local>>,
    pub side: CodeSide,
    pub in_method: bool,
    pub classes: Chain<ClassScope>,
}

impl Scope {
    /// What the head of a nested class's clause sees, in these declarations.
    pub fn clause(alloc: Global, classes: &Chain<ClassScope>) -> Result<Scope, NoMemory>
        ensures { IfOk result (λ scope. scope ≡ clause_scope classes.now) }
    {
        Scope::outermost(
            alloc,
            Table::new(alloc, Key::of_few()),
            CodeSide::Instance,
            false,
            classes,
        )
    }

    /// What an initialiser sees, in a class with this factory.
    pub fn initialiser(
        alloc: Global,
        classes: &Chain<ClassScope>,
        factory: &Option<Pattern>,
    ) -> Result<Scope, NoMemory>
        ensures { IfOk result (λ scope. scope ≡ initialiser_scope classes.now (option_map pattern_of factory.now)) }
    {
        match factory {
            None => Scope::outermost(
                alloc,
                Table::new(alloc, Key::of_few()),
                CodeSide::Instance,
                false,
                classes,
            ),
            Some(pattern) => {
                let names = table_of(alloc, &locals(alloc, &pattern.params, &None)?)?;
                Scope::outermost(alloc, names, CodeSide::Instance, false, classes)
            }
        }
    }

    /// What a method sees, on this side.
    pub fn method(
        alloc: Global,
        classes: &Chain<ClassScope>,
        side: CodeSide,
        params: &[Named],
        slots: &Option<Vec<Slot>>,
    ) -> Result<Scope, NoMemory>
        ensures { IfOk result (λ scope. scope ≡ method_scope classes.now side params.now (bars_of slots.now)) }
    {
        let names = table_of(alloc, &locals(alloc, params, slots)?)?;
        Scope::outermost(alloc, names, side, true, classes)
    }

    /// What a block sees that stands in a body.
    pub fn block(
        alloc: Global,
        outer: &Scope,
        params: &[Named],
        slots: &Option<Vec<Slot>>,
    ) -> Result<Scope, NoMemory>
        ensures { IfOk result (λ scope. scope ≡ block_scope outer.now params.now (bars_of slots.now)) }
    {
        let names = table_of(alloc, &locals(alloc, params, slots)?)?;
        Scope::inside(alloc, names, outer)
    }

    /// What a body sees that stands in no other and declares these names.
    pub fn outermost(
        alloc: Global,
        names: Table<Local>,
        side: CodeSide,
        in_method: bool,
        classes: &Chain<ClassScope>,
    ) -> Result<Scope, NoMemory>
        ensures { IfOk result (λ scope. scope ≡ record { bodies = names ∷ []; side = side; in_method = in_method; classes = classes.now }) }
    {
        Ok(Scope {
            bodies: Chain::inside(alloc, names, &Chain::end(alloc)?)?,
            side,
            in_method,
            classes: classes.share()?,
        })
    }

    /// What a body sees that stands in another and declares these names.
    pub fn inside(alloc: Global, names: Table<Local>, outer: &Scope) -> Result<Scope, NoMemory>
        ensures { IfOk result (λ scope. scope ≡ record {
          bodies = names ∷ outer.now.bodies;
          side = outer.now.side;
          in_method = outer.now.in_method;
          classes = outer.now.classes;
        }) }
    {
        Ok(Scope {
            bodies: Chain::inside(alloc, names, &outer.bodies)?,
            side: outer.side,
            in_method: outer.in_method,
            classes: outer.classes.share()?,
        })
    }

    /// The same, which shares all.
    pub fn share(&self) -> Result<Scope, NoMemory>
        ensures { IfOk result (λ scope. scope ≡ self.now) }
    {
        Ok(Scope {
            bodies: self.bodies.share()?,
            side: self.side,
            in_method: self.in_method,
            classes: self.classes.share()?,
        })
    }

    /// The local that a name means here, and how many bodies stand before it.
    pub fn local(&self, name: &[u8]) -> Option<(u32, Local)>
        ensures { result ≡ innermost self.now.bodies name.now }
    {
        innermost_local(self.bodies.links(), name)
    }

    /// What a name means here.
    pub fn resolve(&self, name: &[u8]) -> Target
        ensures { result ≡ resolve self.now name.now }
    {
        match self.local(name) {
            Some((hops, local)) => Target::Local {
                hops,
                index: local.index,
            },
            None => member(self.classes.links(), self.side, name),
        }
    }
}

/// What a name means outside all bodies.
fn member(classes: &Link<ClassScope>, side: CodeSide, name: &[u8]) -> Target
    ensures { result ≡ member_or_self (innermost (levels side classes.now) name.now) }
{
    let Some((class, outer)) = classes.split() else {
        return Target::SelfSend;
    };
    match class.own_members(side).look_up(name) {
        Some(access) => Target::Member {
            level: 0,
            private: access == Access::Private,
        },
        None => match innermost_member(outer, name) {
            None => Target::SelfSend,
            Some((level, access)) => Target::Member {
                level: level + 1,
                private: access == Access::Private,
            },
        },
    }
}

impl ClassScope {
    /// The members of its side that code on that side reaches at its own level.
    pub fn own_members(&self, side: CodeSide) -> &Table<Access>
        ensures { result.now ≡ own_members side self.now }
    {
        match side {
            CodeSide::Instance => &self.instance,
            CodeSide::Class => &self.class_side,
        }
    }

    /// The scope of a class declaration.
    pub fn of(alloc: Global, class: &Class) -> Result<ClassScope, NoMemory>
        ensures { IfOk result (λ scope. scope ≡ class_scope (class_of class.now)) }
    {
        let instance = instance_members(alloc, &class.slots, &class.side)?;
        let class_side = class_members(alloc, &class.class_side)?;
        Ok(ClassScope {
            name: Text::of(alloc, class.name.text.bytes())?,
            instance: table_of(alloc, &instance)?,
            class_side: table_of(alloc, &class_side)?,
        })
    }
}
