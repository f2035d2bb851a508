//! The names of kinds of errors and of limits.

ghost use Rattle.std.specs.Prelude.{◌≡◌};
ghost use Rattle.ns_moves.specs.Report as spec;

use ns_world::ending::{Kind, LimitKind};

/// The name of a kind of errors.
pub fn kind_name(kind: Kind) -> &'static str
    ensures { result.now ≡ spec.kind_text kind }
{
    match kind {
        Kind::NotUnderstood => "NotUnderstood",
        Kind::NotPublic => "NotPublic",
        Kind::Overflow => "Overflow",
        Kind::ZeroDivide => "ZeroDivide",
        Kind::WrongKind => "WrongKind",
        Kind::OutOfRange => "OutOfRange",
        Kind::MustBeBoolean => "MustBeBoolean",
        Kind::DeadReturn => "DeadReturn",
        Kind::WrongArity => "WrongArity",
        Kind::NotAClass => "NotAClass",
        Kind::KernelSuper => "KernelSuper",
        Kind::InitMismatch => "InitMismatch",
        Kind::FixedSlot => "FixedSlot",
        Kind::ChainLimit => "ChainLimit",
    }
}

/// The name of a limit.
pub fn limit_name(limit: LimitKind) -> &'static str
    ensures { result.now ≡ spec.limit_text limit }
{
    match limit {
        LimitKind::Steps => "steps",
        LimitKind::Cells => "cells",
        LimitKind::Depth => "depth",
        LimitKind::Out => "out",
    }
}
