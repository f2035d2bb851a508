//! The words of a command line, read over the form of their command.

ghost use Rattle.std.specs.Prelude.{◌≡◌, ◌≤◌, ◌+◌, [], IfOk, IfSome, Some, true, map, string_bytes, take, drop, length, nat_le};
ghost use Rattle.ns_base.specs.Limits.{InRange};
ghost use Rattle.ns_run_words.specs.FileName as file_name;
ghost use Rattle.ns_run_words.specs.Forms.{IsSpelledLine};
ghost use Rattle.ns_run_words.specs.Line.{line_seen, seen};
ghost use Rattle.ns_run_words.specs.Options.{arguments_of as arguments_of_lem};
ghost use Rattle.ns_run_words.specs.Own.{least_of as least_of_lem};
ghost use Rattle.ns_run_words.specs.Table.{form_of as form_of_lem};
ghost use Rattle.ns_run_words.specs.Words as spec;

use crate::application::application_of;
use crate::form::{Form, Item, Verb, form_of, item_at, verb_of};
use crate::moves::is_move;
use crate::number::{integer, number, takes_one};
use crate::options::{arguments_of, denial_where, run_where, tests_where};
use crate::own::{least_of, most_of, own_option};
use crate::pause::at_where;
use ns_base::limits::Limits;
use ns_help::topics::text_of;

/// What the options of a command line give.
#[derive(Clone, Copy)]
pub struct Given {
    pub steps: Option<u64>,
    pub cells: Option<u64>,
    pub depth: Option<u64>,
    pub out: Option<u64>,
    pub quantum: Option<u64>,
    pub lib: bool,
    /// Whether tests are asked for in the reverse order.
    pub reverse: bool,
    /// Whether one test alone is named.
    pub only: bool,
    /// How many selectors are denied.
    pub denied: u64,
    /// Whether what a run used is to be told.
    pub stats: bool,
    /// Whether the sends that were open at the end of a run are to be told.
    pub trace: bool,
    /// Whether a run is done only where its answer is true.
    pub truth: bool,
    /// Whether all is told as one line of JSON.
    pub json: bool,
    /// Whether all faults of a program are to be told.
    pub all: bool,
    /// Whether the sends that nothing answers are to be told.
    pub sends: bool,
    /// Whether members are to be listed.
    pub members: bool,
    /// Whether an option names the image.
    pub to: bool,
    /// The steps behind which a run is paused.
    pub at: Option<u64>,
    /// How many texts are named.
    pub texts: u64,
}

impl Given {
    /// The limits that are given, and the defaults of the others.
    pub fn limits(&self) -> Limits
        ensures { result ≡ spec.limits_of self.now }
    {
        Limits {
            steps: self.steps.unwrap_or(Limits::DEFAULT.steps),
            cells: self.cells.unwrap_or(Limits::DEFAULT.cells),
            depth: self.depth.unwrap_or(Limits::DEFAULT.depth),
            out: self.out.unwrap_or(Limits::DEFAULT.out),
        }
    }

    /// The steps of a turn that are given, or the default.
    pub fn quantum(&self) -> u64
        ensures { result ≡ spec.quantum_of self.now }
    {
        self.quantum.unwrap_or(1_000)
    }

    /// The steps behind which a run is paused.
    pub fn at(&self) -> u64
        ensures { result ≡ spec.at_of self.now }
    {
        self.at.unwrap_or(0)
    }
}

/// What a command line says. Its options, names and arguments are those of the words.
#[derive(Drop)]
pub struct Line<'a> {
    pub verb: Verb,
    pub given: Given,
    pub options: &'a [String],
    pub names: &'a [String],
    pub arguments: &'a [String],
}

/// The number of the first word, counted from 0, such that no form begins with the words up to it.
/// Where the words begin a form and more are needed, it is the number of words.
#[derive(Clone, Copy)]
pub struct BadWord(pub u64);

/// What the words say, or the first bad word. `form_of` has the form of each command.
pub fn words(words: &[String]) -> Result<Line<'_>, BadWord>
    ensures reading { seen result ≡ spec.reading_of (map string_bytes words.now) }
    ensures spelled { IfOk result (λ line. IsSpelledLine (line_seen line)) }
    ensures range { IfOk result (λ line. InRange (spec.limits_of line.given)) }
    ensures quantum { IfOk result (λ line. 1 ≤ spec.quantum_of line.given) }
{
    read(words)
}

fn read(words: &[String]) -> Result<Line<'_>, BadWord>
    ensures { seen result ≡ spec.reading_of (map string_bytes words.now) }
{
    match words {
        [] => Err(BadWord(0)),
        [first, rest @ ..] => match verb_of(first.as_bytes()) {
            Some(verb) => after_options(verb, nothing_given(), 1, rest, 0),
            None => Err(BadWord(0)),
        },
    }
}

/// The first bad word of a line on which a word that is no text stands behind these.
pub fn first_bad(line: &[String]) -> u64
    ensures { result ≡ spec.first_bad (map string_bytes line.now) }
{
    match words(line) {
        Ok(_) => line.len() as u64,
        Err(BadWord(word)) => word,
    }
}

/// The number of the sample that these names ask for: there is one name, from 1 to 1,000.
pub fn sample_number(names: &[String]) -> Option<u32>
    ensures is { result ≡ spec.sample_number (map string_bytes names.now) }
    ensures range { IfSome result (λ n. (1 ≤ n) × (n ≤ 1000)) }
{
    match names {
        [name] => match number(1_000, name.as_bytes()) {
            Some(n) => Some(n as u32),
            None => None,
        },
        _ => None,
    }
}

fn nothing_given() -> Given
    ensures { result ≡ spec.nothing_given }
{
    Given {
        steps: None,
        cells: None,
        depth: None,
        out: None,
        quantum: None,
        lib: false,
        reverse: false,
        only: false,
        denied: 0,
        stats: false,
        trace: false,
        truth: false,
        json: false,
        all: false,
        sends: false,
        members: false,
        to: false,
        at: None,
        texts: 0,
    }
}

/// What stands behind options, which are so many of the words. The first word behind them has that
/// number.
fn after_options<'a>(
    verb: Verb,
    given: Given,
    number: u64,
    words: &'a [String],
    count: usize,
) -> Result<Line<'a>, BadWord>
    requires count { count ≤ length words.now }
    requires number { number + length (drop count words.now) ≤ 18446744073709551615 }
    ensures { seen result ≡ spec.read_from verb (spec.Options given (map string_bytes (take count words.now)))
        number (map string_bytes (drop count words.now)) }
{
    let (options, rest) = words.split_at(count);
    match rest {
        [] => after_names(verb, given, options, number, rest, 0),
        [word, ..] => match with_option(form_of(verb), given, word.as_bytes()) {
            Some(more) => after_options(verb, more, number + 1, words, count + 1),
            None => after_names(verb, given, options, number, rest, 0),
        },
    }
}

/// What stands behind names, which are so many of the words. The first word behind them has that
/// number.
fn after_names<'a>(
    verb: Verb,
    given: Given,
    options: &'a [String],
    number: u64,
    words: &'a [String],
    count: usize,
) -> Result<Line<'a>, BadWord>
    requires count { count ≤ length words.now }
    requires number { number + length (drop count words.now) ≤ 18446744073709551615 }
    ensures { seen result ≡ spec.read_from verb (spec.Names given (map string_bytes options.now) (map string_bytes (take count words.now)))
        number (map string_bytes (drop count words.now)) }
{
    let form = form_of(verb);
    let (names, rest) = words.split_at(count);
    match rest {
        [] => ended(verb, given, options, number, names),
        [word, more @ ..] => {
            if is_item(item_at(form, count as u64), word.as_str())
                && (count as u64) < most_of(form, given)
                && has_needed(form, given)
            {
                return after_names(verb, given, options, number + 1, words, count + 1);
            }
            match arguments_behind(form, given, count as u64, word.as_bytes()) {
                Some(most) => arguments(verb, given, options, names, most, number + 1, more),
                None => Err(BadWord(number)),
            }
        }
    }
}

/// The line that ends behind these names, where they are enough.
fn ended<'a>(
    verb: Verb,
    given: Given,
    options: &'a [String],
    number: u64,
    names: &'a [String],
) -> Result<Line<'a>, BadWord>
    ensures { seen result ≡ spec.ended verb number (spec.Names given (map string_bytes options.now) (map string_bytes names.now)) }
{
    if least_of(form_of(verb), given) <= names.len() as u64 {
        Ok(Line {
            verb,
            given,
            options,
            names,
            arguments: &[],
        })
    } else {
        Err(BadWord(number))
    }
}

/// How many arguments may stand behind the word, where it is `--` and the form takes it behind so
/// many names.
fn arguments_behind(form: Form, given: Given, count: u64, word: &[u8]) -> Option<u64>
    ensures is { result ≡ spec.arguments_behind form given count word.now }
    ensures taken { IfSome result (λ most. (arguments_of_lem form given ≡ Some most) × (nat_le (least_of_lem form given) count ≡ true)) }
{
    if word == b"--".as_slice() && least_of(form, given) <= count {
        arguments_of(form, given)
    } else {
        None
    }
}

/// The line that ends with these arguments, where they are not too many. The first has that number.
fn arguments<'a>(
    verb: Verb,
    given: Given,
    options: &'a [String],
    names: &'a [String],
    most: u64,
    number: u64,
    words: &'a [String],
) -> Result<Line<'a>, BadWord>
    requires most { arguments_of_lem (form_of_lem verb) given ≡ Some most }
    requires enough { nat_le (least_of_lem (form_of_lem verb) given) (length names.now) ≡ true }
    requires number { number + length words.now ≤ 18446744073709551615 }
    ensures { seen result ≡ spec.read_from verb (spec.Arguments given (map string_bytes options.now) (map string_bytes names.now) [])
        number (map string_bytes words.now) }
{
    if most < words.len() as u64 {
        return Err(BadWord(number + most));
    }
    Ok(Line {
        verb,
        given,
        options,
        names,
        arguments: words,
    })
}

/// Whether the options are there without which the form takes no name.
fn has_needed(form: Form, given: Given) -> bool
    ensures { result ≡ spec.has_needed form given }
{
    if form.denies {
        return 0 < given.denied;
    }
    !form.at || given.at.is_some()
}

/// Whether a word can be such a name.
fn is_item(item: Item, word: &str) -> bool
    ensures { result ≡ spec.is_item item word.now }
{
    match item {
        Item::File => is_file_name(word.as_bytes()),
        Item::Number(greatest) => number(greatest as u64, word.as_bytes()).is_some(),
        Item::Application => application_of(word).is_some(),
        Item::Text => is_text(word.as_bytes()),
        Item::Topic => text_of(word.as_bytes()).is_some(),
        Item::Selector => takes_one(word.as_bytes()),
        Item::Integer => integer(word.as_bytes()).is_some(),
        Item::Move => is_move(word.as_bytes()),
    }
}

/// Whether a word can be the name of a file.
pub fn is_file_name(word: &[u8]) -> bool
    ensures { result ≡ file_name.is_file_name word.now }
{
    !word.is_empty() && word[0] != b'-' && word.len() <= 4_294_967_295
}

/// Whether a word has no dash in front.
fn is_text(word: &[u8]) -> bool
    ensures { result ≡ file_name.is_text word.now }
{
    word.is_empty() || word[0] != b'-'
}

/// What is given with one word more: an option that the form takes, and that was not given before, or one more denial or text.
fn with_option(form: Form, given: Given, word: &[u8]) -> Option<Given>
    requires { IfSome form.greatest InRange }
    ensures { result ≡ spec.with_option form given word.now }
{
    if word == b"--lib".as_slice() {
        return if form.lib { with_lib(given) } else { None };
    }
    if let Some(more) = quantum_where(form.quantum, given, word) {
        return Some(more);
    }
    if let Some(more) = tests_where(form.tests, given, word) {
        return Some(more);
    }
    if let Some(more) = denial_where(form.denies, given, word) {
        return Some(more);
    }
    if let Some(more) = run_where(form.runs, given, word) {
        return Some(more);
    }
    if let Some(more) = own_option(form, given, word) {
        return Some(more);
    }
    if let Some(more) = at_where(form.at, given, word) {
        return Some(more);
    }
    limit_where(form.greatest, given, word)
}

fn with_lib(given: Given) -> Option<Given>
    ensures { result ≡ spec.with_lib given }
{
    if given.lib {
        None
    } else {
        Some(Given { lib: true, ..given })
    }
}

/// What is given with a word more that is the option of the quantum, where the form takes it.
fn quantum_where(takes: bool, given: Given, word: &[u8]) -> Option<Given>
    ensures { result ≡ spec.quantum_where takes given word.now }
{
    if !takes {
        return None;
    }
    match number_given(b"--quantum=", 1_000_000, given.quantum, word) {
        Some(n) => Some(Given {
            quantum: Some(n),
            ..given
        }),
        None => None,
    }
}

/// What is given with a word more that is the option of a limit, where the form takes these.
fn limit_where(greatest: Option<Limits>, given: Given, word: &[u8]) -> Option<Given>
    requires { IfSome greatest InRange }
    ensures { result ≡ spec.limit_where greatest given word.now }
{
    match greatest {
        Some(greatest) => with_limit(greatest, given, word),
        None => None,
    }
}

/// What is given with a word more that is the option of a limit, where these are the greatest.
fn with_limit(most: Limits, given: Given, word: &[u8]) -> Option<Given>
    requires { InRange most }
    ensures { result ≡ spec.with_limit most given word.now }
{
    if let Some(n) = number_given(b"--steps=", most.steps, given.steps, word) {
        return Some(Given {
            steps: Some(n),
            ..given
        });
    }
    if let Some(n) = number_given(b"--cells=", most.cells, given.cells, word) {
        return Some(Given {
            cells: Some(n),
            ..given
        });
    }
    if let Some(n) = number_given(b"--depth=", most.depth, given.depth, word) {
        return Some(Given {
            depth: Some(n),
            ..given
        });
    }
    match number_given(b"--out=", most.out, given.out, word) {
        Some(n) => Some(Given {
            out: Some(n),
            ..given
        }),
        None => None,
    }
}

/// The number of a word that begins with an option's name, where that option was not given before.
fn number_given(name: &[u8], greatest: u64, before: Option<u64>, word: &[u8]) -> Option<u64>
    requires { greatest ≤ 1000000000000 }
    ensures { result ≡ spec.number_given name.now greatest before word.now }
{
    if before.is_some() || word.len() < name.len() {
        return None;
    }
    let (front, rest) = word.split_at(name.len());
    if front == name {
        number(greatest, rest)
    } else {
        None
    }
}
