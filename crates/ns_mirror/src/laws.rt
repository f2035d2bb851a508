//! Laws of the rows of mirrors. Each function does nothing, and its contract is the law.

ghost use Rattle.ns_code.specs.declared.program.CodeProgram.{CodeProgram};
ghost use Rattle.ns_world.specs.declared.value.Value.{Value};
ghost use Rattle.ns_world.specs.World.{World};
ghost use Rattle.ns_world.specs.declared.kernel_parts.MirrorRow.{MirrorRow};
ghost use Rattle.ns_mirror.specs.Mirror.{row_outcome};
ghost use Rattle.ns_mirror.specs.Leading.{ReflectsOn};
ghost use Rattle.ns_mirror.specs.Stated.{MirrorsAreLive, MirrorsKeepLawful};

/// In a lawful world and for live values a row's answer is live, and so is what it is to send.
pub fn answers_are_live()
    ensures { MirrorsAreLive }
{}

/// A row leaves a lawful world lawful, where the value that `on:` mirrors and the one that
/// `slot:put:` stores are live.
pub fn rows_keep_lawful()
    ensures { MirrorsKeepLawful }
{}

/// A row leads to a later world: it makes a cell, writes a slot, or changes nothing.
pub fn rows_lead_on()
    ensures { (world : World) (code : CodeProgram) (row : MirrorRow) (value one two : Value) → ReflectsOn world (row_outcome world code row value one two) }
{}
