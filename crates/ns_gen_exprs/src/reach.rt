//! What a send without a written receiver reaches.

ghost use Rattle.std.specs.Prelude.{◌≡◌, ◌≤◌, length, map, slice_get, IfOk};
ghost use Rattle.ns_resolved.specs.Expressions.{at_level, reach_of, private_here, private_in, private_at, level_of, reach_self, reach_outer};
ghost use Rattle.ns_gen_exprs.specs.Sending.{meant_reach};

use ns_base::no_memory::NoMemory;
use ns_gen_draft::keys::byte;
use ns_scope::chain::Link;
use ns_scope::resolve::Target;
use ns_scope::scope::{ClassScope, Scope};
use ns_tree::tree::Access;

/// Self, with the members that are not private; the enclosing object for the declaration at a
/// level, with its members that are not private; or the private member of the declaration at a
/// level, on the enclosing object for it.
#[derive(Clone, Copy)]
pub enum Reach {
    Own,
    Enclosing(u8),
    PrivateOf(u8),
}

/// What an implicit send of a name reaches that means this, and is no local.
pub fn reach_of(target: Target) -> Result<Reach, NoMemory>
    ensures { IfOk result (λ reach. meant_reach reach ≡ reach_of target) }
{
    match target {
        Target::Member { level, private } => at_level(level, private),
        _ => Ok(Reach::Own),
    }
}

/// What a send to self reaches: a private member of its own declaration and side, or else what a
/// lookup finds.
pub fn reach_self(scope: &Scope, name: &[u8]) -> Reach
    ensures { meant_reach result ≡ reach_self scope.now name.now }
{
    if is_private_at(scope, 0, name) {
        Reach::PrivateOf(0)
    } else {
        Reach::Own
    }
}

/// What a send to the enclosing object for the innermost declaration of a name reaches.
pub fn reach_outer(scope: &Scope, class: &[u8], name: &[u8]) -> Result<Reach, NoMemory>
    ensures { IfOk result (λ reach. meant_reach reach ≡ reach_outer scope.now class.now name.now) }
{
    let level = level_of(scope.classes.links(), class);
    at_level(level, is_private_at(scope, level, name))
}

/// A private member is reached itself, others by lookup from the enclosing object.
fn at_level(level: u32, private: bool) -> Result<Reach, NoMemory>
    ensures { IfOk result (λ reach. meant_reach reach ≡ at_level level private) }
{
    let level = byte(level)?;
    if private {
        Ok(Reach::PrivateOf(level))
    } else {
        Ok(Reach::Enclosing(level))
    }
}

/// Whether the declaration at a level has a private member of that name, among the members that
/// count there.
fn is_private_at(scope: &Scope, level: u32, name: &[u8]) -> bool
    ensures { result ≡ private_at scope.now level name.now }
{
    let Some((class, outer)) = scope.classes.links().split() else {
        return false;
    };
    if level == 0 {
        is_private(class.own_members(scope.side).look_up(name))
    } else {
        is_private_further(outer, level - 1, name)
    }
}

/// The same further out, where the members of the instance side count.
fn is_private_further(classes: &Link<ClassScope>, level: u32, name: &[u8]) -> bool
    ensures { result ≡ private_in (slice_get (map (λ class. class.instance) classes.now) level) name.now }
{
    let Some((class, outer)) = classes.split() else {
        return false;
    };
    if level == 0 {
        is_private(class.instance.look_up(name))
    } else {
        is_private_further(outer, level - 1, name)
    }
}

fn is_private(access: Option<Access>) -> bool
    ensures { result ≡ private_here access }
{
    matches!(access, Some(Access::Private))
}

/// How many declarations stand before the innermost of that name.
fn level_of(classes: &Link<ClassScope>, name: &[u8]) -> u32
    ensures level { result ≡ level_of classes.now name.now }
    ensures within { result ≤ length classes.now }
{
    let Some((class, outer)) = classes.split() else {
        return 0;
    };
    if name == class.name.bytes() {
        0
    } else {
        level_of(outer, name) + 1
    }
}
