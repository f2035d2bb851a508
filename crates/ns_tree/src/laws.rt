//! Laws on trees, each as the contract of a function that does nothing.

ghost use Rattle.std.specs.Prelude.{◌↔◌, List};
ghost use Rattle.ns_tree.specs.declared.token.Kind.{Kind};
ghost use Rattle.ns_tree.specs.Tree.{Front, BeginsTree};

/// The fronts, which the grammar defines rule by rule, are exactly what begins the tokens of some
/// tree.
pub fn fronts_begin_trees()
    ensures { (kinds : List Kind) → Front kinds ↔ BeginsTree kinds }
{}
