//! What files are read as, by their tokens and the grammar alone. Each function does nothing but name the laws that it
//! rests on, and its contract is the law.

ghost use Rattle.std.specs.Prelude.{◌≡◌, ◌↔◌, ◌++◌, ℕ, Bool, List, Option};
ghost use Rattle.ns_load.specs.Loaded.{Loading, library, load_from, loaded_texts};
ghost use Rattle.ns_load.specs.Source.{FileReading, read, read_file};
ghost use Rattle.ns_load_laws.specs.Loads.{LoadAs, TextReadsAs, Texts};
ghost use Rattle.ns_load_laws.specs.Reads.{SourceReadsAs};

/// What a source is read as is exactly what its tokens and the grammar say.
pub fn sources_are_read_by_the_grammar()
    ensures { (file : ℕ) (source : List ℕ) (reading : FileReading) → read file source ≡ reading ↔ SourceReadsAs file source reading }
{
    ns_lex::laws::sources_are_cut_one_way();
    ns_lex::laws::tokens_have_texts();
    ns_parse::laws::parse_answers_what_the_grammar_says();
}

/// So tokens and grammar say one thing of each source, and one alone.
pub fn sources_are_read_one_way()
    ensures some { (file : ℕ) (source : List ℕ) → (reading : FileReading) × SourceReadsAs file source reading }
    ensures one { (file : ℕ) (source : List ℕ) (first second : FileReading) → SourceReadsAs file source first → SourceReadsAs file source second → first ≡ second }
{
    sources_are_read_by_the_grammar();
}

/// And what texts are loaded as is exactly what is read of each in their order, up to the first that is refused. The
/// library comes last, where it is asked for.
pub fn texts_are_loaded_by_the_grammar()
    ensures text { (file : ℕ) (text : Option (List ℕ)) (reading : FileReading) → read_file file text ≡ reading ↔ TextReadsAs file text reading }
    ensures texts { (k : ℕ) (texts : Texts) (loading : Loading) → load_from k texts ≡ loading ↔ LoadAs k texts loading }
    ensures with_library { (texts : Texts) (lib : Bool) (loading : Loading) → loaded_texts texts lib ≡ loading ↔ LoadAs 0 (texts ++ library lib) loading }
{
    sources_are_read_by_the_grammar();
}
