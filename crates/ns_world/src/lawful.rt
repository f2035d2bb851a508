//! Each call keeps a lawful world lawful. Each function does nothing, and its contract is the law,
//! over the definitions by which the clauses of the world's calls say what they leave.

ghost use Rattle.std.specs.Prelude.{◌≡◌, ℕ, ◌∷◌, List, Some};
ghost use Rattle.ns_code.specs.declared.program.CodeProgram.{CodeProgram};
ghost use Rattle.ns_world.specs.declared.value.Value.{Value};
ghost use Rattle.ns_world.specs.Cell.{Cell};
ghost use Rattle.ns_world.specs.Heap.{write_word, write_byte};
ghost use Rattle.ns_world.specs.World.{World, stepped, entered, left, printed, byte_written};
ghost use Rattle.ns_world.specs.Lawful.{IsLawful};
ghost use Rattle.ns_world.specs.Stated.{MakingKeepsLawful, WritingKeepsLawful, EmptyIsLawful, CountingKeepsLawful, StaysLive};

/// A lawful world in which a cell is made that may be made is lawful.
pub fn making_keeps_lawful()
    ensures { MakingKeepsLawful }
{}

/// A lawful world in which a word is written that may be written is lawful, and so is one in which
/// a byte is written.
pub fn writing_keeps_lawful()
    ensures words { WritingKeepsLawful }
    ensures bytes { (world : World) (code : CodeProgram) (at place byte : ℕ) → IsLawful world code → IsLawful (byte_written world at place byte) code }
{}

/// A lawful world is lawful after each charge that fits, and after a frame was given back.
pub fn charging_keeps_lawful()
    ensures steps { (world after : World) (code : CodeProgram) → IsLawful world code → stepped world ≡ Some after → IsLawful after code }
    ensures frames { (world after : World) (code : CodeProgram) → IsLawful world code → entered world ≡ Some after → IsLawful after code }
    ensures left { (world : World) (code : CodeProgram) → IsLawful world code → IsLawful (left world) code }
    ensures output { (world after : World) (code : CodeProgram) (bytes : List ℕ) → IsLawful world code →
        printed world bytes ≡ Some after → IsLawful after code }
{}

/// A world without cells is lawful for each code that may run, and so is a lawful one whose
/// counters are set within the limits.
pub fn emptying_and_counting_keep_lawful()
    ensures empty { EmptyIsLawful }
    ensures counted { CountingKeepsLawful }
{}

/// In a lawful world a live value that is no environment stays one.
pub fn live_values_stay_live()
    ensures made { (cell : Cell) → StaysLive (λ heap. cell ∷ heap) }
    ensures written { (at word : ℕ) (new : Value) → StaysLive (λ heap. write_word heap at word new) }
    ensures byte_written { (at place byte : ℕ) → StaysLive (λ heap. write_byte heap at place byte) }
{}
