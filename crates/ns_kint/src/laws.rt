//! Laws of the rows of Integer. Each function does nothing, and its contract is the law.

ghost use Rattle.std.specs.Prelude.{◌≡◌, ◌≢◌, ℤ, pos, IfOk, IsTrue};
ghost use Rattle.ns_kint.specs.Division.{floored_quotient, floored_remainder, IsFlooredDivision};
ghost use Rattle.ns_kint.specs.Integer.{integer, is_integer_or_boolean};
ghost use Rattle.ns_world.specs.declared.kernel_parts.IntRow.{IntRow};
ghost use Rattle.ns_world.specs.declared.value.Value.{Value};

/// The quotient and the remainder are the only two that such a division can have: the dividend
/// is the quotient times the divisor and the remainder, which has the divisor's sign and is
/// smaller.
pub fn division_rounds_down()
    ensures holds { (left right : ℤ) → right ≢ pos 0 → IsFlooredDivision left right (floored_quotient left right) (floored_remainder left right) }
    ensures alone { (left right quotient rest : ℤ) → IsFlooredDivision left right quotient rest →
        (quotient ≡ floored_quotient left right) × (rest ≡ floored_remainder left right) }
{}

/// An answer is an Integer or a boolean, and so no reference.
pub fn answers_are_integers_and_booleans()
    ensures { (row : IntRow) (left : ℤ) (right : Value) → IfOk (integer row left right) (λ v. IsTrue (is_integer_or_boolean v)) }
{}
