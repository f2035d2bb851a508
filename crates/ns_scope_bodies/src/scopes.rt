//! The scopes of a program's bodies.

ghost use Rattle.std.specs.Prelude.{◌≡◌, ◌<◌, length, Some, IfOk, option_map, slice_get};
ghost use Rattle.ns_scope.specs.Resolve.{resolve};

use ns_base::no_memory::NoMemory;
use ns_scope::resolve::Target;
use ns_scope::scope::Scope;
use std::marker::Model;

/// The number of a body in a program.
#[derive(Clone, Copy)]
pub struct BodyId(pub u32);

/// What is seen from each body of a program, by the body's number.
#[derive(Drop)]
pub struct Scopes {
    all: Vec<Scope>,
}

impl Model for Scopes {
    ghost use Rattle.std.specs.Prelude.{List, length, ◌<◌, ◌^◌};
    ghost use Rattle.ns_scope.specs.declared.scope.Scope.{Scope};

    ghost Value = { List Scope };

    ghost view = { λ scopes. scopes.all.items };

    ghost invariant = { λ scopes. length scopes.all.items < 2 ^ 32 };
}

impl Scopes {
    /// The scopes of these bodies, unless there are more than 4,294,967,295.
    pub fn from_vec(all: Vec<Scope>) -> Result<Scopes, NoMemory>
        ensures { IfOk result (λ scopes. scopes ≡ all.items) }
    {
        if all.len() > u32::MAX as usize {
            return Err(NoMemory);
        }
        Ok(Scopes { all })
    }

    /// How many bodies there are.
    pub fn bodies(&self) -> u32
        ensures { result ≡ length self.now }
    {
        self.all.len() as u32
    }

    /// What a name means in a body, whose number is below the count of bodies. It takes no memory,
    /// and as many steps as bodies and declarations stand around that body.
    pub fn resolve(&self, body: BodyId, name: &[u8]) -> Target
        requires { body.0 < length self.now }
        ensures { option_map (λ scope. resolve scope name.now) (slice_get self.now body.0) ≡ Some result }
    {
        self.all[body.0 as usize].resolve(name)
    }
}
