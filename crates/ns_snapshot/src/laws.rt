//! Laws on snapshots. Each function does nothing, and its contract is the law.

ghost use Rattle.std.specs.Prelude.{ℕ, List};
ghost use Rattle.ns_code.specs.declared.program.CodeProgram.{CodeProgram};
ghost use Rattle.ns_frozen.specs.declared.frozen.Frozen.{Frozen};
ghost use Rattle.ns_snapshot.specs.Laws.{WrittenIsRead, ReadWasWritten};

use ns_image::laws::{image_is_written_again, read_code_was_written, written_code_is_read};

/// Sound code and a valid state of a run of it are read again from the snapshot that is written of them.
pub fn written_snapshot_is_read()
    ensures { (code : CodeProgram) (frozen : Frozen) → WrittenIsRead code frozen }
{
    written_code_is_read();
}

/// Bytes that are read are the snapshot of the code and the state that are read, which are sound, valid, and fit.
pub fn read_snapshot_was_written()
    ensures { (bytes : List ℕ) → ReadWasWritten bytes }
{
    read_code_was_written();
    image_is_written_again();
}
