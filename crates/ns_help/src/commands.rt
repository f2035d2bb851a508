//! What the commands do.

ghost use Rattle.std.specs.Prelude.{◌≡◌, option_map};
ghost use Rattle.ns_help.specs.Topics as spec;

/// What `check` does.
pub const CHECK: &str = "nspk check [--lib] [--all] [--sends] [--json] FILE ..
Says whether the files are a program: writes `ok`, or the first fault with
its place. --all tells every fault of the program, and --sends each send that
no class of the program and no row of the kernel answers.
";

/// What `show` does.
pub const SHOW: &str = "nspk show FILE
Writes the canonical source of FILE, without comments.
";

/// What `format` does.
pub const FORMAT: &str = "nspk format FILE
Writes FILE with its lines laid out. Tokens, comments and where lines end stay.
";

/// What `run` does.
pub const RUN: &str = "nspk run [OPTION ..] FILE .. [-- ARG ..]
Runs the class of the first FILE. What it prints goes to standard output, and
then the report line to standard error. Options: --lib --steps=N --cells=N
--depth=N --out=N --text=FILE --trace --stats --true --json
";

/// What `eval` does.
pub const EVAL: &str = "nspk eval [OPTION ..] TEXT [-- ARG ..]
Runs the statements of TEXT, which may name `platform`, `args` and `manifest`.
Its first line is line 2 of the file `eval`. A TEXT that begins with a minus is
written with a blank before it. Options are those of run.
";

/// What `build` does.
pub const BUILD: &str = "nspk build [--lib] [--json] IMAGE FILE ..
nspk build [--lib] [--json] --to=IMAGE FILE ..
Stores the code of the files as IMAGE. With --to a file that is there and is no
image isn't written over.
";

/// What `exec` does.
pub const EXEC: &str = "nspk exec [OPTION ..] IMAGE [-- ARG ..]
Reads an image, verifies its code and runs it. Options are those of run but
--lib.
";

/// What `list` does.
pub const LIST: &str = "nspk list [--members] IMAGE
Writes the code of IMAGE. --members tells also the members of its classes, and
the places of its sends.
";

/// What `session` does.
pub const SESSION: &str = "nspk session [OPTION ..] GRANTS=FILE[+FILE ..] ..
Runs up to 16 applications in turns of a quantum, each with the grants of its
letters. Options: --lib --steps=N --cells=N --depth=N --out=N --quantum=N
--json
";

/// What `sample` does.
pub const SAMPLE: &str = "nspk sample N
Makes the sample of N classes, runs it, and writes the steps that it took.
";

/// What `actors` does.
pub const ACTORS: &str = "nspk actors [OPTION ..] COUNT SELECTOR NUMBER FILE ..
Runs COUNT actors of one program, which send each other letters. The first
letter is SELECTOR with NUMBER, to actor 0.
";

/// What `audit` does.
pub const AUDIT: &str = "nspk audit --deny=SELECTOR .. IMAGE CLASS
Says whether the code of CLASS in IMAGE, with all that is nested in it, sends
none of the selectors.
";

/// What `test` does.
pub const TEST: &str = "nspk test [OPTION ..] FILE ..
Runs the tests of the class that the program answers, each in a machine of its
own.
Options: --lib --reverse --only=NAME --steps=N --cells=N --depth=N --out=N
";

/// What `snap` does.
pub const SNAP: &str = "nspk snap --at=N [OPTION ..] SNAP FILE ..
Runs as run does for N steps, and stores the state as SNAP.
";

/// What `resume` does.
pub const RESUME: &str = "nspk resume SNAP
Runs a state that was stored by snap to its end.
";

/// What `replay` does.
pub const REPLAY: &str = "nspk replay [OPTION ..] FILE MOVE ..
Goes to and fro in a run: +N so many steps on, -N back, =N to step N.
";

/// What `library` does.
pub const LIBRARY: &str = "nspk library
Writes the source of the library, which --lib adds as `lib:Collections`.
";

/// What `help` does.
pub const HELP: &str = "nspk help [COMMAND | CAUSE]
Tells how nspk is used, or what COMMAND does, or what the name CAUSE of a
refusal, an error or a limit means.
";

/// What is told of a command, if the word is one.
pub fn commands_text(word: &[u8]) -> Option<&'static str>
    ensures { option_map (λ text. text.now) result ≡ spec.found word.now spec.commands }
{
    if word == b"check".as_slice() {
        return Some(CHECK);
    }
    if word == b"show".as_slice() {
        return Some(SHOW);
    }
    if word == b"format".as_slice() {
        return Some(FORMAT);
    }
    if word == b"run".as_slice() {
        return Some(RUN);
    }
    if word == b"eval".as_slice() {
        return Some(EVAL);
    }
    if word == b"build".as_slice() {
        return Some(BUILD);
    }
    if word == b"exec".as_slice() {
        return Some(EXEC);
    }
    if word == b"list".as_slice() {
        return Some(LIST);
    }
    if word == b"session".as_slice() {
        return Some(SESSION);
    }
    if word == b"sample".as_slice() {
        return Some(SAMPLE);
    }
    if word == b"actors".as_slice() {
        return Some(ACTORS);
    }
    if word == b"audit".as_slice() {
        return Some(AUDIT);
    }
    if word == b"test".as_slice() {
        return Some(TEST);
    }
    if word == b"snap".as_slice() {
        return Some(SNAP);
    }
    if word == b"resume".as_slice() {
        return Some(RESUME);
    }
    if word == b"replay".as_slice() {
        return Some(REPLAY);
    }
    if word == b"library".as_slice() {
        return Some(LIBRARY);
    }
    if word == b"help".as_slice() {
        return Some(HELP);
    }
    None
}
