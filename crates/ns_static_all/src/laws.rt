//! Laws on all faults, each as the contract of a function that does nothing.

ghost use Rattle.std.specs.Prelude.{◌≡◌};
ghost use Rattle.ns_scope.specs.declared.program.Program.{Program};
ghost use Rattle.ns_static_rules.specs.Least.{order_of};
ghost use Rattle.ns_static.specs.Check.{fault_of, faults_of};
ghost use Rattle.ns_static_all.specs.All.{all_faults};
ghost use Rattle.ns_static_all.specs.Ascending.{AreAllOf, first_of};

/// What is told ascends by file, line, column and cause; each is a fault of the rules, and none is missing.
pub fn all_are_told()
    ensures { (program : Program) → AreAllOf order_of (faults_of program) (all_faults program) }
{}

/// The first is the one that the check of the program tells; where it tells none, there is none.
pub fn first_is_least()
    ensures { (program : Program) → first_of (all_faults program) ≡ fault_of program }
{}
