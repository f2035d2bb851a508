//! Laws on what is laid out, each as the contract of a function that does nothing.

ghost use Rattle.std.specs.Prelude.{◌≡◌, List, ℕ};
ghost use Rattle.ns_format.specs.Consists.{ArePieces};
ghost use Rattle.ns_format.specs.Format.{formatted};
ghost use Rattle.ns_format.specs.Pieces.{pieces};
ghost use Rattle.ns_lex.specs.Lexes.{Lexes};
ghost use Rattle.ns_lex.specs.Spaced.{LexesTo};
ghost use Rattle.ns_tree.specs.Tokens.{kinds};
ghost use Rattle.ns_tree.specs.declared.token.Token.{Token};

/// The pieces of a source that tokens cut are these tokens and its comments, and it has nothing else
/// but blanks.
pub fn pieces_are_all()
    ensures { (source : List ℕ) (tokens : List Token) → Lexes source tokens → ArePieces (pieces source) source (kinds tokens) }
{}

/// A source that tokens cut, laid out, is cut into tokens of the same kinds: whoever reads the tokens
/// reads the same.
pub fn tokens_are_kept()
    ensures { (source : List ℕ) (tokens : List Token) → Lexes source tokens → LexesTo (formatted source) (kinds tokens) }
{}

/// It has the same pieces: tokens and comments, byte for byte and in the same order, each behind a gap
/// of the same sort. So only blanks change.
pub fn pieces_are_kept()
    ensures same { (source : List ℕ) (tokens : List Token) → Lexes source tokens → pieces (formatted source) ≡ pieces source }
    ensures all { (source : List ℕ) (tokens : List Token) → Lexes source tokens → ArePieces (pieces source) (formatted source) (kinds tokens) }
{}

/// Laid out once more, it stays as it is.
pub fn layout_is_settled()
    ensures { (source : List ℕ) (tokens : List Token) → Lexes source tokens → formatted (formatted source) ≡ formatted source }
{
    pieces_are_kept();
}
