//! The forms of a command line as data: a line of the table for each command.

ghost use Rattle.std.specs.Prelude.{◌≡◌};
ghost use Rattle.ns_run_words.specs.Table as spec;

use ns_base::limits::Limits;

/// A command, which the first word of a line names.
#[derive(Clone, Copy)]
pub enum Verb {
    /// Says whether files are a program.
    Check,
    /// Writes the canonical source of a file.
    Show,
    /// Writes a file with its lines laid out.
    Format,
    /// Runs a program.
    Run,
    /// Runs statements that the line itself has.
    Eval,
    /// Stores the image of a program.
    Build,
    /// Runs an image.
    Exec,
    /// Lists the code of an image.
    Listing,
    /// Runs several applications in turns.
    Session,
    /// Runs the sample of a number.
    Sample,
    /// Runs several actors of a program, which send each other letters.
    Actors,
    /// Says whether the code of a module in an image ever sends certain selectors.
    Audit,
    /// Runs the tests of a program.
    Test,
    /// Stores the snapshot of a run that is paused.
    Snap,
    /// Runs on from a snapshot.
    Resume,
    /// Goes through the run of a program forward and back.
    Replay,
    /// Writes the source of the library.
    Library,
    /// Tells how the program is used.
    Help,
    /// Tells that too, or what a command does, or what the name of a refusal, an error or a limit means.
    Explain,
    /// Tells the version of the program.
    Version,
}

/// What each name of a command is.
#[derive(Clone, Copy)]
pub enum Item {
    /// The name of a file.
    File,
    /// A number from 1 to this one.
    Number(u32),
    /// An application: what it is granted, and the names of its files.
    Application,
    /// Any text without a dash in front.
    Text,
    /// What there is a text on: the word of a command, or the name of a cause.
    Topic,
    /// A selector of one argument.
    Selector,
    /// An integer of 64 bits.
    Integer,
    /// A move of a replay.
    Move,
}

/// What stands in front of the other names.
#[derive(Clone, Copy)]
pub enum Lead {
    Nothing,
    /// How many actors there are, and the selector and the argument of the letter to the first of them.
    Letter,
    /// The file of a program.
    Source,
}

/// What may stand behind the first word: options, in any order and each at most once, but for denials and texts; then
/// names; then `--` and arguments.
#[derive(Clone, Copy)]
pub struct Form {
    /// The greatest limits that can be given, as `--steps=N` and so on, where they can.
    pub greatest: Option<Limits>,
    /// Whether `--quantum=N` can be given.
    pub quantum: bool,
    /// Whether `--lib` can be given.
    pub lib: bool,
    /// Whether `--reverse` and `--only=NAME` can be given.
    pub tests: bool,
    /// Whether `--deny=SELECTOR` is to be given, from once to 16 times.
    pub denies: bool,
    /// Whether `--stats`, `--trace`, `--true` and `--text=FILE` can be given, the last up to 255 times.
    pub runs: bool,
    /// Whether `--json` can be given.
    pub json: bool,
    /// Whether `--all` and `--sends` can be given.
    pub checks: bool,
    /// Whether `--members` can be given.
    pub members: bool,
    /// Whether `--to=IMAGE` can be given, which stands for the first of the names.
    pub to: bool,
    /// Whether `--at=N` must be given.
    pub at: bool,
    /// What the first names are.
    pub lead: Lead,
    /// What each other name is.
    pub item: Item,
    /// The fewest names.
    pub least: u64,
    /// The most names.
    pub most: u64,
    /// The most arguments, where `--` is taken. Each text is one of them.
    pub arguments: Option<u64>,
}

/// The greatest limits of each of several runs side by side: as many cells and frames as a run has by default.
const GREATEST_OF_MANY: Limits = Limits {
    cells: Limits::DEFAULT.cells,
    depth: Limits::DEFAULT.depth,
    ..Limits::GREATEST
};

/// The form of a command.
pub fn form_of(verb: Verb) -> Form
    ensures { result ≡ spec.form_of verb }
{
    match verb {
        Verb::Check => Form {
            checks: true,
            json: true,
            ..program()
        },
        Verb::Show => names(1, 1),
        Verb::Format => names(1, 1),
        Verb::Run => run(program()),
        Verb::Eval => eval(),
        // The image, and 1 to 16 files behind it.
        Verb::Build => Form {
            lib: true,
            to: true,
            json: true,
            ..names(2, 17)
        },
        Verb::Exec => run(names(1, 1)),
        Verb::Listing => Form {
            members: true,
            ..names(1, 1)
        },
        Verb::Session => session(),
        Verb::Sample => Form {
            item: Item::Number(1_000),
            ..names(1, 1)
        },
        Verb::Actors => actors(),
        // The image, and the name of a class.
        Verb::Audit => Form {
            denies: true,
            json: true,
            ..names(2, 2)
        },
        Verb::Test => tests(),
        Verb::Snap => snap(),
        Verb::Resume => names(1, 1),
        Verb::Replay => replay(),
        Verb::Library => names(0, 0),
        Verb::Help => names(0, 0),
        Verb::Explain => Form {
            item: Item::Topic,
            ..names(0, 1)
        },
        Verb::Version => names(0, 0),
    }
}

/// The form of the files of a program.
fn program() -> Form
    ensures { result ≡ spec.of_program }
{
    Form {
        lib: true,
        ..names(1, 16)
    }
}

/// A form with the options of a run and with arguments.
fn run(form: Form) -> Form
    ensures { result ≡ spec.run_of form }
{
    Form {
        greatest: Some(Limits::GREATEST),
        runs: true,
        json: true,
        arguments: Some(255),
        ..form
    }
}

/// The form of a run of statements.
fn eval() -> Form
    ensures { result ≡ spec.form_of Verb.Eval }
{
    run(Form {
        lib: true,
        item: Item::Text,
        ..names(1, 1)
    })
}

/// The form of a session.
fn session() -> Form
    ensures { result ≡ spec.form_of Verb.Session }
{
    Form {
        greatest: Some(GREATEST_OF_MANY),
        quantum: true,
        lib: true,
        json: true,
        item: Item::Application,
        ..names(1, 16)
    }
}

/// The form of actors: their letter, and 1 to 16 files behind it.
fn actors() -> Form
    ensures { result ≡ spec.form_of Verb.Actors }
{
    Form {
        greatest: Some(GREATEST_OF_MANY),
        lib: true,
        json: true,
        lead: Lead::Letter,
        ..names(4, 19)
    }
}

/// The form of the tests of a program.
fn tests() -> Form
    ensures { result ≡ spec.form_of Verb.Test }
{
    Form {
        greatest: Some(Limits::GREATEST),
        tests: true,
        json: true,
        ..program()
    }
}

/// The form of the snapshot of a paused run: the snapshot, and 1 to 16 files behind it.
fn snap() -> Form
    ensures { result ≡ spec.form_of Verb.Snap }
{
    Form {
        greatest: Some(Limits::GREATEST),
        lib: true,
        at: true,
        ..names(2, 17)
    }
}

/// The form of a replay: the file, and 1 to 16 moves behind it.
fn replay() -> Form
    ensures { result ≡ spec.form_of Verb.Replay }
{
    Form {
        greatest: Some(GREATEST_OF_MANY),
        lib: true,
        lead: Lead::Source,
        item: Item::Move,
        ..names(2, 17)
    }
}

/// The form of names of files alone.
fn names(least: u64, most: u64) -> Form
    ensures { result ≡ spec.names_alone least most }
{
    Form {
        greatest: None,
        quantum: false,
        lib: false,
        tests: false,
        denies: false,
        runs: false,
        json: false,
        checks: false,
        members: false,
        to: false,
        at: false,
        lead: Lead::Nothing,
        item: Item::File,
        least,
        most,
        arguments: None,
    }
}

/// What the name behind so many others is.
pub fn item_at(form: Form, count: u64) -> Item
    ensures { result ≡ spec.item_at form count }
{
    match form.lead {
        Lead::Nothing => form.item,
        Lead::Letter => in_letter(form.item, count),
        Lead::Source => behind_source(form.item, count),
    }
}

/// What the name behind so many others is, where a letter stands in front of names of that kind.
fn in_letter(item: Item, count: u64) -> Item
    ensures { result ≡ spec.in_letter item count }
{
    if count == 0 {
        return Item::Number(16);
    }
    if count == 1 {
        return Item::Selector;
    }
    if count == 2 {
        return Item::Integer;
    }
    item
}

/// What the name behind so many others is, where a file stands in front of names of that kind.
fn behind_source(item: Item, count: u64) -> Item
    ensures { result ≡ spec.behind_source item count }
{
    if count == 0 { Item::File } else { item }
}

/// The command that a first word names.
pub fn verb_of(word: &[u8]) -> Option<Verb>
    ensures { result ≡ spec.verb_of word.now }
{
    if word == b"check".as_slice() {
        return Some(Verb::Check);
    }
    if word == b"show".as_slice() {
        return Some(Verb::Show);
    }
    if word == b"format".as_slice() {
        return Some(Verb::Format);
    }
    if word == b"run".as_slice() {
        return Some(Verb::Run);
    }
    if word == b"eval".as_slice() {
        return Some(Verb::Eval);
    }
    if word == b"build".as_slice() {
        return Some(Verb::Build);
    }
    if word == b"exec".as_slice() {
        return Some(Verb::Exec);
    }
    if word == b"list".as_slice() {
        return Some(Verb::Listing);
    }
    if word == b"session".as_slice() {
        return Some(Verb::Session);
    }
    if word == b"sample".as_slice() {
        return Some(Verb::Sample);
    }
    if word == b"actors".as_slice() {
        return Some(Verb::Actors);
    }
    if word == b"audit".as_slice() {
        return Some(Verb::Audit);
    }
    if word == b"test".as_slice() {
        return Some(Verb::Test);
    }
    if word == b"snap".as_slice() {
        return Some(Verb::Snap);
    }
    if word == b"resume".as_slice() {
        return Some(Verb::Resume);
    }
    if word == b"replay".as_slice() {
        return Some(Verb::Replay);
    }
    if word == b"library".as_slice() {
        return Some(Verb::Library);
    }
    telling_verb_of(word)
}

/// The command that a first word names, of those that tell of the program itself.
fn telling_verb_of(word: &[u8]) -> Option<Verb>
    ensures { result ≡ spec.telling_verb_of word.now }
{
    if word == b"--help".as_slice() {
        return Some(Verb::Help);
    }
    if word == b"-h".as_slice() {
        return Some(Verb::Help);
    }
    if word == b"help".as_slice() {
        return Some(Verb::Explain);
    }
    if word == b"--version".as_slice() {
        return Some(Verb::Version);
    }
    if word == b"-V".as_slice() {
        return Some(Verb::Version);
    }
    None
}
