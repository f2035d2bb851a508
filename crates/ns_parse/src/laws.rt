//! What is parsed, by the grammar alone: laws, each as the contract of a function that does nothing.

ghost use Rattle.std.specs.Prelude.{◌≡◌, ◌↔◌, ℕ, List, Result, Ok, Err, None};
ghost use Rattle.ns_parse.specs.Answers.{ParsesAs};
ghost use Rattle.ns_parse.specs.Places.{TokensStopAt};
ghost use Rattle.ns_parse.specs.Parse as spec;
ghost use Rattle.ns_parse_tokens.specs.declared.fault.ParseFault.{ParseFault};
ghost use Rattle.ns_parse_tokens.specs.declared.fault.ParseFault.TheVariants.{Syntax};
ghost use Rattle.ns_tree.specs.Deep.{deep};
ghost use Rattle.ns_tree.specs.Plain as p;
ghost use Rattle.ns_tree.specs.Tree.{AllHaveText, Spells};
ghost use Rattle.ns_tree.specs.declared.token.Kind.{Kind};

/// Of tokens that have texts, what is parsed is exactly what the grammar says: it gives one answer and no other.
pub fn parse_answers_what_the_grammar_says()
    ensures { (ts : List Kind) (answer : Result p.SourceUnit ParseFault) → AllHaveText ts → spec.parse ts ≡ answer ↔ ParsesAs ts answer }
{}

/// Tokens that have texts are parsed to a tree exactly where they spell it and no bracket is too deep.
pub fn what_is_spelled_is_parsed()
    ensures { (ts : List Kind) (unit : p.SourceUnit) → AllHaveText ts → spec.parse ts ≡ Ok unit ↔ (Spells ts unit × (deep ts ≡ None)) }
{}

/// Tokens spell at most one tree.
pub fn one_tree_is_spelled()
    ensures { (ts : List Kind) (first second : p.SourceUnit) → Spells ts first → Spells ts second → first ≡ second }
{}

/// `Syntax` stands at token k exactly where the tokens before it begin a file, no file goes on with it, and
/// no bracket is too deep.
pub fn syntax_stands_where_no_file_goes_on()
    ensures { (ts : List Kind) (k : ℕ) → AllHaveText ts → spec.parse ts ≡ Err (Syntax k) ↔ (TokensStopAt ts k × (deep ts ≡ None)) }
{}

/// What is parsed of tokens that have texts is a tree of the grammar, which these tokens spell.
pub fn trees_are_spelled()
    ensures { (ts : List Kind) (unit : p.SourceUnit) → AllHaveText ts → spec.parse ts ≡ Ok unit → Spells ts unit }
{}
