//! Laws of the world's cells. Each function does nothing, and its contract is the law.

ghost use Rattle.std.specs.Prelude.{◌≡◌, ◌≢◌, ℕ, ◌<◌, ◌≤◌, ◌∷◌, length, Some, None, IsTrue, IsSome};
ghost use Rattle.ns_world.specs.declared.value.Value.{Value};
ghost use Rattle.ns_world.specs.Cell.{Cell};
ghost use Rattle.ns_world.specs.Heap.{Heap, heap_size, find_cell, next_number, is_class, chain_of, write_word, write_byte};

/// A cell is made at the number of cells used, and no other cell and no other chain changes.
pub fn making_changes_no_other()
    ensures here { (heap : Heap) (cell : Cell) → find_cell (cell ∷ heap) (heap_size heap) ≡ Some cell }
    ensures others { (heap : Heap) (cell : Cell) (number : ℕ) → number ≢ heap_size heap → find_cell (cell ∷ heap) number ≡ find_cell heap number }
    ensures chains { (heap : Heap) (cell : Cell) (class : ℕ) → class ≢ heap_size heap → chain_of (cell ∷ heap) class ≡ chain_of heap class }
{}

/// A chain of classes is no longer than the cells used.
pub fn chains_end()
    ensures { (heap : Heap) (class : ℕ) → length (chain_of heap class) ≤ heap_size heap }
{}

/// Writing a word changes no cell but that of the word, no class, no chain and no cell's number.
pub fn writing_changes_no_class()
    ensures others { (heap : Heap) (at word number : ℕ) (value : Value) → number ≢ at →
        find_cell (write_word heap at word value) number ≡ find_cell heap number }
    ensures classes { (heap : Heap) (at word number : ℕ) (value : Value) → IsTrue (is_class (find_cell heap number)) →
        find_cell (write_word heap at word value) number ≡ find_cell heap number }
    ensures chains { (heap : Heap) (at word class : ℕ) (value : Value) → chain_of (write_word heap at word value) class ≡ chain_of heap class }
    ensures size { (heap : Heap) (at word : ℕ) (value : Value) → heap_size (write_word heap at word value) ≡ heap_size heap }
{}

/// Writing a byte changes no cell but its text, no class, no chain and no cell's number.
pub fn writing_a_byte_changes_no_class()
    ensures others { (heap : Heap) (at place number byte : ℕ) → number ≢ at → find_cell (write_byte heap at place byte) number ≡ find_cell heap number }
    ensures classes { (heap : Heap) (at place number byte : ℕ) → IsTrue (is_class (find_cell heap number)) →
        find_cell (write_byte heap at place byte) number ≡ find_cell heap number }
    ensures chains { (heap : Heap) (at place class byte : ℕ) → chain_of (write_byte heap at place byte) class ≡ chain_of heap class }
    ensures size { (heap : Heap) (at place byte : ℕ) → heap_size (write_byte heap at place byte) ≡ heap_size heap }
{}

/// From number to number behind a cell a walk meets each cell: the first has the number 0, behind
/// a cell stands the next unless all cells used were met, and none stands between.
pub fn walks_meet_each_cell()
    ensures first { (heap : Heap) → 0 < heap_size heap → IsSome (find_cell heap 0) }
    ensures next { (heap : Heap) (at : ℕ) → IsSome (find_cell heap at) → next_number heap at < heap_size heap → IsSome (find_cell heap (next_number heap at)) }
    ensures none_between { (heap : Heap) (at number : ℕ) → IsSome (find_cell heap at) →
        at < number → number < next_number heap at → find_cell heap number ≡ None }
{}
