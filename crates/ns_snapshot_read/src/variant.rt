//! Variants that hold nothing, by their numbers.

ghost use Rattle.ns_image.specs.Reads.{ReadsBytes};
ghost use Rattle.ns_snapshot.specs.Fields as spec;

use ns_image::fault::Fault;
use ns_image::read::input::Input;
use ns_world::cell::FacetKind;
use ns_world::ending::{Kind, LimitKind};
use ns_world::kernel_class::KernelRow;
use ns_world::kernel_parts::KMethod;
use ns_world::value::KClass;

/// A class object of the kernel.
#[tactic(auto, unfolding(ns_snapshot::specs::Fields::one_of))]
pub fn kernel_class(input: &mut Input<'_>) -> Result<KClass, Fault>
    ensures { ReadsBytes (spec.kernel_class input.old.rest.now) result input.new.rest.now }
{
    let left = input.rest.len();
    match input.byte()? {
        0 => Ok(KClass::Object),
        1 => Ok(KClass::Array),
        2..=255 => Err(Fault::Bad(left)),
    }
}

/// A class of the kernel, by its place among them.
#[tactic(auto, unfolding(ns_snapshot::specs::Fields::one_of))]
pub fn kernel_row(input: &mut Input<'_>) -> Result<KernelRow, Fault>
    ensures { ReadsBytes (spec.kernel_row input.old.rest.now) result input.new.rest.now }
{
    let left = input.rest.len();
    match input.byte()? {
        0 => Ok(KernelRow::Object),
        1 => Ok(KernelRow::ObjectClass),
        2 => Ok(KernelRow::ArrayClass),
        3 => Ok(KernelRow::Class),
        4 => Ok(KernelRow::UndefinedObject),
        5 => Ok(KernelRow::Boolean),
        6 => Ok(KernelRow::Integer),
        7 => Ok(KernelRow::String),
        8 => Ok(KernelRow::Symbol),
        9 => Ok(KernelRow::Array),
        10 => Ok(KernelRow::Block),
        11 => Ok(KernelRow::Manifest),
        12 => Ok(KernelRow::Platform),
        13 => Ok(KernelRow::Kernel),
        14 => Ok(KernelRow::Console),
        15 => Ok(KernelRow::Board),
        16 => Ok(KernelRow::Mirrors),
        17 => Ok(KernelRow::Mirror),
        18 => Ok(KernelRow::Message),
        19..=255 => Err(Fault::Bad(left)),
    }
}

/// A kind of error.
#[tactic(auto, unfolding(ns_snapshot::specs::Fields::one_of))]
pub fn error_kind(input: &mut Input<'_>) -> Result<Kind, Fault>
    ensures { ReadsBytes (spec.error_kind input.old.rest.now) result input.new.rest.now }
{
    let left = input.rest.len();
    match input.byte()? {
        0 => Ok(Kind::NotUnderstood),
        1 => Ok(Kind::NotPublic),
        2 => Ok(Kind::Overflow),
        3 => Ok(Kind::ZeroDivide),
        4 => Ok(Kind::WrongKind),
        5 => Ok(Kind::OutOfRange),
        6 => Ok(Kind::MustBeBoolean),
        7 => Ok(Kind::DeadReturn),
        8 => Ok(Kind::WrongArity),
        9 => Ok(Kind::NotAClass),
        10 => Ok(Kind::KernelSuper),
        11 => Ok(Kind::InitMismatch),
        12 => Ok(Kind::FixedSlot),
        13 => Ok(Kind::ChainLimit),
        14..=255 => Err(Fault::Bad(left)),
    }
}

/// A kind of limit.
#[tactic(auto, unfolding(ns_snapshot::specs::Fields::one_of))]
pub fn limit_kind(input: &mut Input<'_>) -> Result<LimitKind, Fault>
    ensures { ReadsBytes (spec.limit_kind input.old.rest.now) result input.new.rest.now }
{
    let left = input.rest.len();
    match input.byte()? {
        0 => Ok(LimitKind::Steps),
        1 => Ok(LimitKind::Cells),
        2 => Ok(LimitKind::Depth),
        3 => Ok(LimitKind::Out),
        4..=255 => Err(Fault::Bad(left)),
    }
}

/// A kind of facet.
#[tactic(auto, unfolding(ns_snapshot::specs::Fields::one_of))]
pub fn facet_kind(input: &mut Input<'_>) -> Result<FacetKind, Fault>
    ensures { ReadsBytes (spec.facet_kind input.old.rest.now) result input.new.rest.now }
{
    let left = input.rest.len();
    match input.byte()? {
        0 => Ok(FacetKind::Manifest),
        1 => Ok(FacetKind::Platform),
        2 => Ok(FacetKind::Console),
        3 => Ok(FacetKind::Mirrors),
        4 => Ok(FacetKind::Kernel),
        5 => Ok(FacetKind::Board),
        6..=255 => Err(Fault::Bad(left)),
    }
}

/// A method of the kernel that evaluates blocks.
#[tactic(auto, unfolding(ns_snapshot::specs::Fields::one_of))]
pub fn kernel_method(input: &mut Input<'_>) -> Result<KMethod, Fault>
    ensures { ReadsBytes (spec.kernel_method input.old.rest.now) result input.new.rest.now }
{
    let left = input.rest.len();
    match input.byte()? {
        0 => Ok(KMethod::And),
        1 => Ok(KMethod::Or),
        2 => Ok(KMethod::IfTrue),
        3 => Ok(KMethod::IfFalse),
        4 => Ok(KMethod::IfTrueIfFalse),
        5 => Ok(KMethod::IfFalseIfTrue),
        6 => Ok(KMethod::WhileTrue),
        7 => Ok(KMethod::WhileFalse),
        8 => Ok(KMethod::ToDo),
        9 => Ok(KMethod::TimesRepeat),
        10 => Ok(KMethod::Do),
        11..=255 => Err(Fault::Bad(left)),
    }
}
