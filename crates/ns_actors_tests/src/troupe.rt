//! Four actors of four applications, which post letters to one another.
//! Each numbers the letters that it posts from 1, so that a letter that is lost, comes twice or comes late is seen.

/// How many actors there are.
pub const COUNT: u32 = 4;

/// One that posts none, one or two letters, by what it has received so far, and knows both selectors.
const BUSY: &str =
    "class T packageUsing: m = (| private console ::= nil. private sum ::= 1. private sent ::= 0. |) (
private to: actor = (sent:: sent + 1. ^{actor \\\\ 4. #hit:. sent})
public bump: n = (sum:: sum + n. sent:: sent + 1. ^{{2. #bump:. sent}})
public hit: n = (
    sum:: sum * 31 + n \\\\ 9973.
    console print: sum; print: ' '.
    sent > 20 ifTrue: [^nil].
    sum \\\\ 3 = 0 ifTrue: [^{}].
    sum \\\\ 3 = 1 ifTrue: [^{to: sum}].
    ^{to: sum. to: sum // 7}
)
public main: p args: a = (console:: p console)
)";

/// One that now and then fails, or answers what is no outbox.
const FAILING: &str = "class T packageUsing: m = (| private sum ::= 5. private sent ::= 0. |) (
public hit: n = (
    sum:: sum * 17 + n \\\\ 9973.
    sum \\\\ 23 = 0 ifTrue: [^1 // 0].
    sum \\\\ 19 = 0 ifTrue: [^{{4. #hit:. n}}].
    sent:: sent + 1.
    ^{{sum \\\\ 4. #hit:. sent}}
)
public main: p args: a = ()
)";

/// One that doesn't know the selector of most letters, and posts to itself.
const DEAF: &str = "class T packageUsing: m = (| private sent ::= 0. |) (
public bump: n = (n \\\\ 3 = 0 ifTrue: [^nil]. sent:: sent + 1. ^{{2. #bump:. sent}})
public main: p args: a = ()
)";

/// One whose sends take many turns, until it meets its limit on steps.
const SLOW: &str = "class T packageUsing: m = (| private console ::= nil. private sent ::= 0. |) (
public hit: n = (
    1 to: n * 5 do: [:k | k \\\\ 7 = 0 ifTrue: [console print: '.']].
    sent:: sent + 1.
    ^{{n \\\\ 4. #hit:. sent}}
)
public main: p args: a = (console:: p console)
)";

/// The sources of the four, by their numbers.
pub const SOURCES: [&str; 4] = [BUSY, FAILING, DEAF, SLOW];
