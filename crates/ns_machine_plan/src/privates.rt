//! The private member that a selector names in a declaration around a body.

ghost use Rattle.std.specs.Prelude.{◌≡◌, ◌<◌, length};
ghost use Rattle.ns_find.specs.Find.{side_of};
ghost use Rattle.ns_machine_plan.specs.Members.{ArePrivatesOf};
ghost use Rattle.ns_machine_plan.specs.Privates as spec;

use crate::members::Privates;
use crate::step::Member;
use ns_base::selector::Sel;
use ns_code::body::BodyCode;
use ns_code::program::CodeProgram;

/// The private member of that name of the declaration so many levels out from a body.
pub fn member_at(
    code: &CodeProgram,
    privates: &Privates,
    body: &BodyCode,
    level: u8,
    sel: Sel,
) -> Member
    requires privates { ArePrivatesOf code.now privates.now }
    requires name { sel.0 < length code.now.names }
    ensures { result ≡ spec.member_at code.now body.now level sel }
{
    match privates.declaration_out(code, body.class, level) {
        Some(decl) => privates.member(code, is_side_at(body, level), sel, decl),
        None => Member::Absent,
    }
}

/// Whether the members of the class side count at a level: only those of the code itself may.
fn is_side_at(body: &BodyCode, level: u8) -> bool
    ensures { side_of result ≡ spec.level_side body.now level }
{
    match level {
        0 => body.side == 1,
        _ => false,
    }
}
