//! How the program is used, and its version.

/// The answer to `--help`, `-h` and `help`.
pub const HELP: &str = "nspk runs Newspeak, in a profile with 64-bit integers

usage:
  nspk check [--lib] [--all] [--sends] [--json] FILE ..
                                             says whether the files are a program
  nspk show FILE                             writes the canonical source of FILE
  nspk format FILE                           writes FILE with its lines laid out
  nspk run [OPTION ..] FILE .. [-- ARG ..]   runs the class of the first FILE
  nspk eval [OPTION ..] TEXT [-- ARG ..]     runs the statements of TEXT
  nspk build [--lib] [--json] IMAGE FILE ..  stores the code of the files as IMAGE
  nspk build [--lib] [--json] --to=IMAGE FILE ..
                                             so too, but not over what is no image
  nspk exec [OPTION ..] IMAGE [-- ARG ..]    runs IMAGE
  nspk list [--members] IMAGE                writes the code of IMAGE
  nspk session [OPTION ..] GRANTS=FILE[+FILE ..] ..
                                             runs up to 16 applications in turns
  nspk actors [OPTION ..] COUNT SELECTOR NUMBER FILE ..
                                             runs COUNT actors of one program, of
                                             which the first gets a letter
  nspk audit [--json] --deny=SELECTOR .. IMAGE CLASS
                                             says whether the module CLASS of IMAGE
                                             can send a SELECTOR
  nspk test [OPTION ..] FILE ..              runs the tests of the first FILE, each
                                             alone
  nspk snap [OPTION ..] --at=N SNAP FILE ..  stores as SNAP the run of the files,
                                             paused after N steps
  nspk resume SNAP                           runs on from SNAP
  nspk replay [OPTION ..] FILE MOVE ..       goes to and fro in the run of FILE
  nspk sample N                              runs a program of N classes: 1 to 1000
  nspk library                               writes the source of the library
  nspk help [COMMAND | CAUSE]                tells this, or of COMMAND or CAUSE
  nspk --version                             tells the version

GRANTS are letters, in this order and each or not: c for the console, k for
the kernel, m for mirrors, b for the board that applications share.

A MOVE is +N, N steps on; -N, N steps back; or =N, to step N; N from 0 to
1000000000000. There are 1 to 16.

There are at most 16 files and 255 arguments. Options stand before the files,
in any order, and each at most once but for --text and --deny:
  --lib      the library is the last of the files (not with exec)
  --steps=N  within N steps: 1 to 1000000000000, without it 10000000
  --cells=N  within N cells of the heap: 1 to 64000000, without it 4000000
  --depth=N  with at most N live frames: 1 to 100000, without it 10000
  --out=N    with at most N bytes of output: 1 to 16777216, without it 1048576
  --text=FILE  the bytes of FILE are an argument more; run, eval, exec
  --trace    tells the sends that were open at the end; run, eval, exec
  --stats    tells what was used; run, eval, exec
  --true     status 1 where the answer isn't true; run, eval, exec
  --json     tells it all as one line of JSON; check, run, eval, exec, build,
             session, actors, audit, test
  --quantum=N  with turns of N steps: 1 to 1000000, without it 1000; with
             session alone, where each application has at most 4000000 cells
             and 10000 frames, as actors and the run of a replay have
  --deny=SELECTOR  one of at most 16 selectors, with audit alone, which wants one
  --at=N     paused after N steps: 0 to 1000000000000, with snap alone, which wants
             it
  --reverse  the tests in the reverse order, with test alone
  --only=NAME  the test of this name, with test alone
N is a decimal number without a zero in front.

exit status:
  0  done
  1  the program ended in an error
  2  the words, a file, or a size of the program, its image or its snapshot were
     refused
  3  a limit was reached
  4  the file could not be read
  5  a stream, the image or the snapshot could not be written
  6  no memory was found
";

/// The answer to `--version` and `-V`.
pub const VERSION: &str = "nspk 0.1.0\n";
