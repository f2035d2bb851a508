//! How causes of a refusal are written.

ghost use Rattle.std.specs.Prelude.{◌≡◌};
ghost use Rattle.ns_run_outcome.specs.Report as spec;

use ns_gen_code::size::SizeKind;
use ns_load::fault::SpellingCause;
use ns_static_rules::fault::{Many, StaticCause};
use ns_verify::fault::VerifyCause;

/// What is wrong with a text.
pub fn spelling_name(cause: SpellingCause) -> &'static str
    ensures { result.now ≡ spec.spelling_name cause }
{
    match cause {
        SpellingCause::BadByte => "BadByte",
        SpellingCause::UnclosedComment => "UnclosedComment",
        SpellingCause::UnclosedString => "UnclosedString",
        SpellingCause::BigNumber => "BigNumber",
        SpellingCause::TooDeep => "TooDeep",
        SpellingCause::Syntax => "Syntax",
    }
}

/// A static fault.
pub fn static_name(cause: StaticCause) -> &'static str
    ensures { result.now ≡ spec.static_name cause }
{
    match cause {
        StaticCause::DuplicateMember => "DuplicateMember",
        StaticCause::DuplicateLocal => "DuplicateLocal",
        StaticCause::FixedLocal => "FixedLocal",
        StaticCause::BadReturn => "BadReturn",
        StaticCause::BareReceiver => "BareReceiver",
        StaticCause::NoSuchOuter => "NoSuchOuter",
        StaticCause::BadCascade => "BadCascade",
        StaticCause::PlainTooLarge => "PlainTooLarge",
        StaticCause::TooMany(kind) => many_name(kind),
        StaticCause::TopSuper => "TopSuper",
        StaticCause::DuplicateTop => "DuplicateTop",
    }
}

fn many_name(kind: Many) -> &'static str
    ensures { result.now ≡ spec.many_name kind }
{
    match kind {
        Many::Parameters => "TooMany(Parameters)",
        Many::Locals => "TooMany(Locals)",
        Many::Elements => "TooMany(Elements)",
        Many::Members => "TooMany(Members)",
        Many::Classes => "TooMany(Classes)",
    }
}

/// A size that passes its limit.
pub fn size_name(kind: SizeKind) -> &'static str
    ensures { result.now ≡ spec.size_name kind }
{
    match kind {
        SizeKind::Names => "TooLarge(Names)",
        SizeKind::Bodies => "TooLarge(Bodies)",
        SizeKind::Code => "TooLarge(Code)",
        SizeKind::Height => "TooLarge(Height)",
    }
}

/// Why code isn't admitted.
pub fn verify_name(cause: VerifyCause) -> &'static str
    ensures { result.now ≡ spec.verify_name cause }
{
    match cause {
        VerifyCause::BadJump => "BadJump",
        VerifyCause::BadHeight => "BadHeight",
        VerifyCause::BadSlot => "BadSlot",
        VerifyCause::BadScope => "BadScope",
        VerifyCause::BadLiteral => "BadLiteral",
        VerifyCause::NoReturn => "NoReturn",
    }
}
