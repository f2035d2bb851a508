//! What a name means in a body.

ghost use Rattle.std.specs.Prelude.{◌≡◌, ◌<◌, length, map, IfSome};
ghost use Rattle.ns_scope.specs.Resolve.{innermost};

use crate::chain::Link;
use crate::names::Local;
use crate::scope::{ClassScope, CodeSide};
use crate::table::Table;
use ns_tree::tree::Access;

/// A local, by how many bodies further out and its number there; a member, by the level of the
/// declaration that declares it, and whether it is private; or a send to self.
#[derive(Clone, Copy, PartialEq, Eq)]
pub enum Target {
    Local { hops: u32, index: u32 },
    Member { level: u32, private: bool },
    SelfSend,
}

/// The local of the innermost body that declares the name, and how many bodies stand before it.
pub fn innermost_local(bodies: &Link<Table<Local>>, name: &[u8]) -> Option<(u32, Local)>
    ensures local { result ≡ innermost bodies.now name.now }
    ensures within { IfSome result (λ found. found.0 < length bodies.now) }
{
    let (body, outer) = bodies.split()?;
    match body.look_up(name) {
        Some(local) => Some((0, local)),
        None => {
            let (hops, local) = innermost_local(outer, name)?;
            Some((hops + 1, local))
        }
    }
}

/// The instance-side member of the innermost declaration that declares the name, and how many
/// declarations stand before it.
pub fn innermost_member(classes: &Link<ClassScope>, name: &[u8]) -> Option<(u32, Access)>
    ensures member { result ≡ innermost (map (λ class. class.instance) classes.now) name.now }
    ensures within { IfSome result (λ found. found.0 < length classes.now) }
{
    let (class, outer) = classes.split()?;
    match class.instance.look_up(name) {
        Some(access) => Some((0, access)),
        None => {
            let (level, access) = innermost_member(outer, name)?;
            Some((level + 1, access))
        }
    }
}
