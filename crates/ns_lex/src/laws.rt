//! Laws on how sources are cut, each as the contract of a function that does nothing.

ghost use Rattle.std.specs.Prelude.{◌≡◌, ◌↔◌, ◌⊎◌, ◌∷◌, ◌++◌, ℕ, true, length, List, Ok, Err};
ghost use Rattle.ns_lex.specs.Bytes.{is_blank};
ghost use Rattle.ns_lex.specs.Fault.{fault_at};
ghost use Rattle.ns_lex.specs.Lexes.{LexStops, Lexes};
ghost use Rattle.ns_lex.specs.Next.{next_piece};
ghost use Rattle.ns_lex.specs.Scan.{scan};
ghost use Rattle.ns_lex.specs.Spaced.{IsSpaced, LexesTo};
ghost use Rattle.ns_lex.specs.Spells.{SpellsToken};
ghost use Rattle.ns_lex.specs.declared.piece.Cause.{Cause};
ghost use Rattle.ns_lex.specs.declared.piece.Piece.TheVariants as piece;
ghost use Rattle.ns_tree.specs.Tokens.{kinds};
ghost use Rattle.ns_tree.specs.Tree.{AllHaveText, HasText};
ghost use Rattle.ns_tree.specs.declared.token.Kind.{Kind};
ghost use Rattle.ns_tree.specs.declared.token.Token.{Token};

/// For each source exactly one of these: one list of tokens cuts it, or one fault stops it, at one
/// byte. Its scan says which.
pub fn sources_are_cut_one_way()
    ensures some { (source : List ℕ) → ((tokens : List Token) × Lexes source tokens) ⊎ ((at : ℕ) × (cause : Cause) × LexStops source at cause) }
    ensures one { (source : List ℕ) (ts us : List Token) → Lexes source ts → Lexes source us → ts ≡ us }
    ensures one_stop { (source : List ℕ) (n m : ℕ) (c d : Cause) → LexStops source n c → LexStops source m d → (n ≡ m) × (c ≡ d) }
    ensures no_stop { (source : List ℕ) (tokens : List Token) (at : ℕ) (cause : Cause) → Lexes source tokens → LexStops source at cause → ⊥ }
    ensures scanned { (source : List ℕ) (tokens : List Token) → Lexes source tokens ↔ (scan source ≡ Ok tokens) }
    ensures stopped { (source : List ℕ) (at : ℕ) (cause : Cause) → LexStops source at cause ↔ (scan source ≡ Err (fault_at cause at)) }
{}

/// A token that some text spells has a text, and so have the tokens that cut a source.
pub fn tokens_have_texts()
    ensures each { (w : List ℕ) (kind : Kind) → SpellsToken w kind → HasText kind }
    ensures all { (source : List ℕ) (tokens : List Token) → Lexes source tokens → AllHaveText (kinds tokens) }
{}

/// A text that spells a token is read as that token again, where a blank stands behind it.
pub fn texts_are_read_again()
    ensures { (w z : List ℕ) (kind : Kind) (b : ℕ) → SpellsToken w kind → is_blank b ≡ true → next_piece (w ++ b ∷ z) ≡ piece.Token kind (length w) }
{}

/// Texts of tokens, with a blank behind each, are cut into these tokens.
pub fn spaced_texts_are_cut()
    ensures { (source : List ℕ) (wanted : List Kind) → IsSpaced source wanted → LexesTo source wanted }
{}
