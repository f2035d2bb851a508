//! Where declarations stand.

ghost use Rattle.std.specs.Prelude.{◌≡◌, ◌+◌, OnOk};
ghost use Rattle.ns_scope.specs.Scopes.{is_outside};

use crate::never::cannot_come;
use ns_base::no_memory::NoMemory;
use ns_base::place::Place;
use ns_scope::chain::Chain;
use ns_scope::scope::ClassScope;

/// The declarations around, innermost first; the number of the innermost; and the places of the
/// file's tokens.
#[derive(Drop)]
pub struct Around<'a> {
    pub classes: &'a Chain<ClassScope>,
    pub outer: Option<u32>,
    pub marks: &'a [Place],
}

impl Around<'_> {
    /// Whether there is no declaration around.
    pub fn is_outside(&self) -> bool
        ensures { result ≡ is_outside self.now.classes.now }
    {
        self.classes.links().split().is_none()
    }
}

/// Goes on to the next number.
pub fn advance(number: &mut u32) -> Result<(), NoMemory>
    ensures { OnOk result (number.new ≡ number.old + 1) }
{
    let Some(behind) = number.checked_add(1) else {
        return Err(cannot_come());
    };
    *number = behind;
    Ok(())
}
