//! Variants that hold nothing, by their numbers.

ghost use Rattle.std.specs.Prelude.{◌≡◌};
ghost use Rattle.ns_image.specs.Bytes as image;
ghost use Rattle.ns_snapshot.specs.Bytes as spec;
ghost use Rattle.ns_world.specs.Seek.{facet_number};

use ns_world::cell::FacetKind;
use ns_world::ending::{Kind, LimitKind};
use ns_world::kernel_class::KernelRow;
use ns_world::kernel_parts::KMethod;
use ns_world::value::KClass;

/// That of a class object of the kernel.
pub fn kernel_class(class: KClass) -> u8
    ensures { image.byte result ≡ spec.kernel_class class }
{
    match class {
        KClass::Object => 0,
        KClass::Array => 1,
    }
}

/// That of a class of the kernel.
pub fn row_number(row: KernelRow) -> u8
    ensures { result ≡ spec.row_number row }
{
    match row {
        KernelRow::Object => 0,
        KernelRow::ObjectClass => 1,
        KernelRow::ArrayClass => 2,
        KernelRow::Class => 3,
        KernelRow::UndefinedObject => 4,
        KernelRow::Boolean => 5,
        KernelRow::Integer => 6,
        KernelRow::String => 7,
        KernelRow::Symbol => 8,
        KernelRow::Array => 9,
        KernelRow::Block => 10,
        KernelRow::Manifest => 11,
        KernelRow::Platform => 12,
        KernelRow::Kernel => 13,
        KernelRow::Console => 14,
        KernelRow::Board => 15,
        KernelRow::Mirrors => 16,
        KernelRow::Mirror => 17,
        KernelRow::Message => 18,
    }
}

/// That of a kind of error.
pub fn kind_number(kind: Kind) -> u8
    ensures { result ≡ spec.kind_number kind }
{
    match kind {
        Kind::NotUnderstood => 0,
        Kind::NotPublic => 1,
        Kind::Overflow => 2,
        Kind::ZeroDivide => 3,
        Kind::WrongKind => 4,
        Kind::OutOfRange => 5,
        Kind::MustBeBoolean => 6,
        Kind::DeadReturn => 7,
        Kind::WrongArity => 8,
        Kind::NotAClass => 9,
        Kind::KernelSuper => 10,
        Kind::InitMismatch => 11,
        Kind::FixedSlot => 12,
        Kind::ChainLimit => 13,
    }
}

/// That of a limit.
pub fn limit_number(kind: LimitKind) -> u8
    ensures { result ≡ spec.limit_number kind }
{
    match kind {
        LimitKind::Steps => 0,
        LimitKind::Cells => 1,
        LimitKind::Depth => 2,
        LimitKind::Out => 3,
    }
}

/// That of a method of the kernel that evaluates blocks.
pub fn method_number(method: KMethod) -> u8
    ensures { result ≡ spec.method_number method }
{
    match method {
        KMethod::And => 0,
        KMethod::Or => 1,
        KMethod::IfTrue => 2,
        KMethod::IfFalse => 3,
        KMethod::IfTrueIfFalse => 4,
        KMethod::IfFalseIfTrue => 5,
        KMethod::WhileTrue => 6,
        KMethod::WhileFalse => 7,
        KMethod::ToDo => 8,
        KMethod::TimesRepeat => 9,
        KMethod::Do => 10,
    }
}

/// That of a facet.
pub fn facet_number(kind: FacetKind) -> u8
    ensures { result ≡ facet_number kind }
{
    match kind {
        FacetKind::Manifest => 0,
        FacetKind::Platform => 1,
        FacetKind::Console => 2,
        FacetKind::Mirrors => 3,
        FacetKind::Kernel => 4,
        FacetKind::Board => 5,
    }
}
