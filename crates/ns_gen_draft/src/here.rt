//! Where an expression stands.

ghost use Rattle.std.specs.Prelude.{◌≡◌};
ghost use Rattle.ns_scope.specs.Resolve.{resolve};
ghost use Rattle.ns_resolved.specs.Expressions.{place_at};

use ns_base::place::Place;
use ns_scope::resolve::Target;
use ns_scope::scope::Scope;

/// What is seen from an expression, the numbers of its body and of its declaration, and the places
/// of its file's tokens.
#[derive(Drop)]
pub struct Here<'a> {
    pub scope: &'a Scope,
    pub body: u32,
    pub class: u32,
    pub marks: &'a [Place],
}

impl Here<'_> {
    /// The place of a token.
    pub fn place(&self, at: u32) -> Place
        ensures { result ≡ place_at self.now.marks.now at }
    {
        match self.marks.get(at as usize) {
            Some(place) => *place,
            None => Place {
                file: 0,
                line: 0,
                col: 0,
            },
        }
    }

    /// What a name means.
    pub fn resolve(&self, name: &[u8]) -> Target
        ensures { result ≡ resolve self.now.scope.now name.now }
    {
        self.scope.resolve(name)
    }
}
