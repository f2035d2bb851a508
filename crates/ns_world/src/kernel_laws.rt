//! A law of the table. The function does nothing, and its contract is the law.

ghost use Rattle.std.specs.List.{AllByRecursion};
ghost use Rattle.ns_world.specs.declared.kernel_class.KernelRow.{KernelRow};
ghost use Rattle.ns_world.specs.KernelTable.{StandsThere, rows_of};

/// The rows of a class stand in the table at the places of their numbers: what a lookup finds by a
/// text is answered by what the table says of its number.
pub fn rows_are_those_of_the_table()
    ensures { (class : KernelRow) → AllByRecursion StandsThere (rows_of class) }
{}
