//! Running code.

ghost use Rattle.std.specs.Prelude.{◌≡◌, ◌-◌};
ghost use Rattle.ns_find.specs.Find.{side_of};
ghost use Rattle.ns_moves.specs.Bodies as bodies;

use ns_code::program::CodeProgram;
use ns_world::value::Value;

/// Running code, as far as it doesn't change while its body runs: self, the holder of its
/// declaration, its body, the home to which a block returns, and the environment around its body,
/// or that of its body where it has one.
#[derive(Clone, Copy)]
pub struct Running {
    pub me: Value,
    pub holder: u32,
    pub body: u32,
    pub home: u64,
    pub env: Value,
}

/// The home of what runs in no method.
pub const NO_HOME: u64 = 18_446_744_073_709_551_615;

/// Whether the locals of a body stand in an environment.
#[inline(always)]
pub fn has_environment(code: &CodeProgram, body: u32) -> bool
    ensures { result ≡ bodies.has_environment code.now body }
{
    match code.bodies.as_slice().get(body as usize) {
        Some(declared) => declared.environment,
        None => false,
    }
}

/// How many parameters a body has.
#[inline(always)]
pub fn parameters(code: &CodeProgram, body: u32) -> u8
    ensures { result ≡ bodies.parameters_of code.now body }
{
    match code.bodies.as_slice().get(body as usize) {
        Some(declared) => declared.params,
        None => 0,
    }
}

/// How many locals a body has beside its parameters.
#[inline(always)]
pub fn own_locals(code: &CodeProgram, body: u32) -> u32
    ensures { result ≡ bodies.locals_of code.now body - bodies.parameters_of code.now body }
{
    match code.bodies.as_slice().get(body as usize) {
        Some(declared) => u32::from(declared.locals.saturating_sub(declared.params)),
        None => 0,
    }
}

/// Whether a body stands on the class side.
#[inline(always)]
pub fn is_on_class_side(code: &CodeProgram, body: u32) -> bool
    ensures { bodies.side_of_body code.now body ≡ side_of result }
{
    match code.bodies.as_slice().get(body as usize) {
        Some(declared) => declared.side == 1,
        None => false,
    }
}

/// The initialiser of a declaration.
#[inline(always)]
pub fn initialiser(code: &CodeProgram, decl: u32) -> u32
    ensures { result ≡ bodies.initialiser_of code.now decl }
{
    match code.classes.as_slice().get(decl as usize) {
        Some(class) => class.init,
        None => 0,
    }
}

/// The clause of a declaration, where it has one.
#[inline(always)]
pub fn clause(code: &CodeProgram, decl: u32) -> Option<u32>
    ensures { result ≡ bodies.clause_of code.now decl }
{
    match code.classes.as_slice().get(decl as usize) {
        Some(class) => class.clause,
        None => None,
    }
}
