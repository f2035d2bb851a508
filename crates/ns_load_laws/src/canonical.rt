//! Laws of the canonical source. Each function does nothing but name the laws that it rests on, and its contract is the
//! law.

ghost use Rattle.std.specs.Prelude.{◌≡◌, ◌↔◌, ℕ, List, None};
ghost use Rattle.ns_load_laws.specs.Canonical.{IsParsedTo, IsSourceOf, ScansTo, canonical};
ghost use Rattle.ns_lex.specs.Spaced.{LexesTo};
ghost use Rattle.ns_lex.specs.Spells.{SpellsToken};
ghost use Rattle.ns_print.specs.Printed.{printed, spell};
ghost use Rattle.ns_tree.specs.Deep.{deep};
ghost use Rattle.ns_tree.specs.Flat.{flat};
ghost use Rattle.ns_tree.specs.Plain.{SourceUnit};
ghost use Rattle.ns_tree.specs.Tree.{AllHaveText, HasText, Tree};
ghost use Rattle.ns_tree.specs.declared.token.Kind.{Kind};

/// A token has a text exactly where its canonical text spells it.
pub fn kinds_are_spelled()
    ensures { (kind : Kind) → HasText kind ↔ SpellsToken (spell kind) kind }
{
    ns_lex::laws::tokens_have_texts();
}

/// The canonical source of tokens that have texts is cut into these tokens.
pub fn printed_kinds_are_cut()
    ensures { (wanted : List Kind) → AllHaveText wanted → LexesTo (printed wanted) wanted }
{
    kinds_are_spelled();
    ns_lex::laws::spaced_texts_are_cut();
}

/// So the canonical source of a tree is a source of this tree, and its scan gives the tree's tokens.
pub fn printed_trees_are_cut()
    ensures cut { (unit : SourceUnit) → Tree unit → IsSourceOf (canonical unit) unit }
    ensures scanned { (unit : SourceUnit) → Tree unit → ScansTo (canonical unit) (flat unit) }
{
    printed_kinds_are_cut();
    ns_lex::laws::sources_are_cut_one_way();
}

/// And each tree of which it is a source has the same canonical source.
pub fn canonical_sources_stay()
    ensures { (unit other : SourceUnit) → Tree unit → IsSourceOf (canonical unit) other → canonical other ≡ canonical unit }
{
    printed_trees_are_cut();
    ns_lex::laws::sources_are_cut_one_way();
}

/// A tree with at most 100 brackets open at once is parsed of its canonical source again.
pub fn canonical_sources_are_parsed()
    ensures { (unit : SourceUnit) → Tree unit → deep (flat unit) ≡ None → IsParsedTo (canonical unit) unit }
{
    printed_trees_are_cut();
    ns_lex::laws::sources_are_cut_one_way();
    ns_parse::laws::what_is_spelled_is_parsed();
}

/// A source is a source of one tree at most.
pub fn sources_have_one_tree()
    ensures { (source : List ℕ) (unit other : SourceUnit) → IsSourceOf source unit → IsSourceOf source other → unit ≡ other }
{
    ns_lex::laws::sources_are_cut_one_way();
    ns_parse::laws::one_tree_is_spelled();
}
