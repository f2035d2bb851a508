//! Laws over the definitions. Each is the contract of a function that does nothing but name the laws on which it rests.

ghost use Rattle.std.specs.Prelude.{ℕ, List};
ghost use Rattle.ns_base.specs.declared.place.Place.{Place};
ghost use Rattle.ns_load.specs.Answer.{AreRead};
ghost use Rattle.ns_load.specs.Stated.{LoadedIsWhole};
ghost use Rattle.ns_scope.specs.Whole.{AreWholeUnits};
ghost use Rattle.ns_tree.specs.Plain as p;

/// What was read of files are whole units: each is a tree of the grammar that the tokens of its
/// source spell, each token and the end have a place, and each place is of that file, with lines and
/// columns from 1 on, at most one more than a source has bytes.
pub fn what_is_read_is_whole()
    ensures { (file : ℕ) (units : List p.SourceUnit) (places : List (List Place)) → AreRead file units places → AreWholeUnits file units places }
{
    ns_lex::laws::sources_are_cut_one_way();
    ns_lex::laws::tokens_have_texts();
}

/// What `load` gives for 1 to 16 names of files is a whole program.
pub fn what_is_loaded_is_whole()
    ensures { LoadedIsWhole }
{
    ns_lex::laws::sources_are_cut_one_way();
    ns_lex::laws::tokens_have_texts();
}
