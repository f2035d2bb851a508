//! The class declarations of code, and which of them have a member of a name.

ghost use Rattle.std.specs.Prelude.{◌≡◌, ◌<◌, ◌^◌, length, IfOk};
ghost use Rattle.ns_code.specs.Listed.{ListsAll, TellsOf, all_listed};
ghost use Rattle.ns_code.specs.MemberNames.{instance_names, side_names, setter_names};

use crate::class::ClassCode;
use crate::copies::TryClone;
use crate::listed::{Index, Listed};
use crate::naming::{Members, Naming, Setters, SideMethods};
use ns_base::items::Items;
use ns_base::no_memory::NoMemory;
use ns_base::selector::Sel;
use std::alloc::Global;
use std::marker::Model;

/// Class declarations, each known by its number in their list. A clause sees the list alone. Beside it stand the declarations
/// under the names of their members that aren't private, so that a lookup goes through no other.
#[derive(Drop)]
pub struct Classes {
    all: Items<ClassCode>,
    instance: Index,
    side: Index,
    setters: Index,
}

impl Model for Classes {
    ghost use Rattle.std.specs.Prelude.{List};
    ghost use Rattle.ns_code.specs.declared.class.ClassCode.{ClassCode};
    ghost use Rattle.ns_code.specs.Listed.{ListsAll};
    ghost use Rattle.ns_code.specs.MemberNames.{instance_names, side_names, setter_names};

    ghost Value = { List ClassCode };

    ghost view = { λ classes. classes.all };

    ghost invariant = { λ classes. ListsAll (instance_names classes.all) classes.all classes.instance
        × ListsAll side_names classes.all classes.side
        × ListsAll setter_names classes.all classes.setters };
}

impl Classes {
    /// These declarations. More than 4,294,967,295 are taken for want of memory.
    pub fn of(alloc: Global, all: Items<ClassCode>) -> Result<Classes, NoMemory>
        ensures { IfOk result (λ classes. classes ≡ all) }
    {
        if all.len() > u32::MAX as usize {
            return Err(NoMemory);
        }
        let declared = all.as_slice();
        let instance = index_of(alloc, declared, &Members { declared })?;
        let side = index_of(alloc, declared, &SideMethods)?;
        let setters = index_of(alloc, declared, &Setters)?;
        Ok(Classes {
            all,
            instance,
            side,
            setters,
        })
    }

    /// The declarations.
    pub fn as_slice(&self) -> &[ClassCode]
        ensures { result.now ≡ self.now }
    {
        self.all.as_slice()
    }

    /// How many there are.
    pub fn len(&self) -> usize
        ensures { result ≡ length self.now }
    {
        self.all.len()
    }

    /// Those that have a member of that name on the instance side that isn't private: a slot, a nested class or a method.
    pub fn with_member(&self, name: Sel) -> &[Listed]
        ensures { TellsOf (instance_names self.now) self.now name.0 result.now }
    {
        self.instance.under(name.0)
    }

    /// Those that have a method of that name on the class side that isn't private.
    pub fn with_side_method(&self, name: Sel) -> &[Listed]
        ensures { TellsOf side_names self.now name.0 result.now }
    {
        self.side.under(name.0)
    }

    /// Those that have a mutable slot of that name that isn't private.
    pub fn with_setter(&self, name: Sel) -> &[Listed]
        ensures { TellsOf setter_names self.now name.0 result.now }
    {
        self.setters.under(name.0)
    }
}

impl TryClone for Classes {
    fn try_clone(&self, alloc: Global) -> Result<Classes, NoMemory> {
        let all = self.all.try_clone(alloc)?;
        let instance = self.instance.copy(alloc)?;
        let side = self.side.copy(alloc)?;
        let setters = self.setters.copy(alloc)?;
        Ok(Classes {
            all,
            instance,
            side,
            setters,
        })
    }
}

/// The declarations under names of theirs, in the order of these.
#[tactic(auto, using(crate::proofs::Listing::lists_all))]
fn index_of<N: Naming>(alloc: Global, classes: &[ClassCode], naming: &N) -> Result<Index, NoMemory>
    requires { length classes.now < 2 ^ 32 }
    ensures { IfOk result (λ index. ListsAll (N.names naming.now) classes.now index) }
{
    let listed = listed_of(alloc, classes, naming)?;
    Ok(Index::of(listed))
}

/// The same in the order of the declarations.
fn listed_of<N: Naming>(
    alloc: Global,
    classes: &[ClassCode],
    naming: &N,
) -> Result<Vec<Listed>, NoMemory>
    requires { length classes.now < 2 ^ 32 }
    ensures { IfOk result (λ listed. listed.items ≡ all_listed (N.names naming.now) 0 classes.now) }
{
    let mut listed = Vec::new(alloc);
    let mut number: u32 = 0;
    'classes: for class in classes {
        naming.put(&mut listed, number, class)?;
        number += 1;
    }
    Ok(listed)
}
