//! Copies of code, in memory of their own.

ghost use Rattle.std.specs.Prelude.{◌≡◌, IfOk};

use crate::body::BodyCode;
use crate::class::ClassCode;
use crate::instructions::Instructions;
use crate::local_names::LocalNames;
use crate::program::CodeProgram;
use ns_base::items::Items;
use ns_base::no_memory::NoMemory;
use ns_base::text::Text;
use std::alloc::Global;

/// What can be copied, where memory is found.
pub trait TryClone: Drop {
    /// An equal value in memory of its own.
    fn try_clone(&self, alloc: Global) -> Result<Self, NoMemory>
        ensures equal { IfOk result (λ copy. copy ≡ self.now) };
}

impl TryClone for Text {
    fn try_clone(&self, alloc: Global) -> Result<Text, NoMemory> {
        Text::of(alloc, self.bytes())
    }
}

impl TryClone for LocalNames {
    fn try_clone(&self, alloc: Global) -> Result<LocalNames, NoMemory> {
        match self.parts() {
            ([], count) => Ok(LocalNames::numbered(count)),
            (names, _) => Ok(LocalNames::given(clones_of(alloc, names)?)),
        }
    }
}

impl TryClone for Instructions {
    fn try_clone(&self, alloc: Global) -> Result<Instructions, NoMemory> {
        self.copy(alloc)
    }
}

impl TryClone for BodyCode {
    fn try_clone(&self, alloc: Global) -> Result<BodyCode, NoMemory> {
        let instrs = self.instrs.try_clone(alloc)?;
        let places = copies_of(alloc, self.places.as_slice())?;
        let local_names = self.local_names.try_clone(alloc)?;
        Ok(BodyCode {
            kind: self.kind,
            side: self.side,
            class: self.class,
            parent: self.parent,
            params: self.params,
            locals: self.locals,
            environment: self.environment,
            height: self.height,
            instrs,
            places,
            local_names,
        })
    }
}

impl<T: TryClone> TryClone for Items<T> {
    fn try_clone(&self, alloc: Global) -> Result<Items<T>, NoMemory> {
        clones_of(alloc, self.as_slice())
    }
}

impl TryClone for ClassCode {
    fn try_clone(&self, alloc: Global) -> Result<ClassCode, NoMemory> {
        let slots = copies_of(alloc, self.slots.as_slice())?;
        let nested = copies_of(alloc, self.nested.as_slice())?;
        let methods = copies_of(alloc, self.methods.as_slice())?;
        let side_methods = copies_of(alloc, self.side_methods.as_slice())?;
        Ok(ClassCode {
            name: self.name,
            outer: self.outer,
            factory: self.factory,
            params: self.params,
            clause: self.clause,
            init: self.init,
            super_sel: self.super_sel,
            slots,
            nested,
            methods,
            side_methods,
        })
    }
}

impl TryClone for CodeProgram {
    fn try_clone(&self, alloc: Global) -> Result<CodeProgram, NoMemory> {
        let files = clones_of(alloc, self.files.as_slice())?;
        let names = self.names.try_clone(alloc)?;
        let texts = clones_of(alloc, self.texts.as_slice())?;
        let classes = self.classes.try_clone(alloc)?;
        let bodies = clones_of(alloc, self.bodies.as_slice())?;
        Ok(CodeProgram {
            files,
            names,
            texts,
            classes,
            bodies,
        })
    }
}

/// The list of these items' copies, each in memory of its own.
fn clones_of<T: TryClone>(alloc: Global, items: &[T]) -> Result<Items<T>, NoMemory>
    ensures { IfOk result (λ copies. copies ≡ items.now) }
{
    let mut copies = Vec::with_capacity(alloc, items.len())?;
    'items: for item in items {
        copies.push(item.try_clone(alloc)?)?;
    }
    Ok(Items::from_vec(copies))
}

/// The list of these items, which are plain.
fn copies_of<T: Copy>(alloc: Global, items: &[T]) -> Result<Items<T>, NoMemory>
    ensures { IfOk result (λ copies. copies ≡ items.now) }
{
    Ok(Items::from_vec(Vec::from_slice(alloc, items)?))
}
