//! Modules that a host sends `turn:` to. Each has the platform, keeps a value, and can make objects, blocks and output that
//! nothing reaches.

/// What stands before the members of each module, and behind them.
pub const HEAD: &str = "class T packageUsing: m = (| platform ::= nil. kept ::= nil. |) (\n";

pub const TAIL: &str = "
public main: p args: a = (platform:: p)
public waste: n = (
    | garbage |
    1 to: n do: [:i |
        garbage:: {garbage. [:x | garbage:: x. ^x]. i printString}.
        platform console printLine: i]
)
)
";

/// The members of each module.
pub const MODULES: [&str; 12] = [
    SENDS, ARRAYS, OBJECTS, MESSAGES, SEARCHES, TEXTS, LISTS, BLOCKS, PROXIES, SAME, FAULTS, LIMITS,
];

const SENDS: &str = "
fibonacci: n = (n < 2 ifTrue: [^n]. ^(fibonacci: n - 1) + (fibonacci: n - 2))
public turn: k = (^fibonacci: k \\\\ 10)
";

const ARRAYS: &str = "
public turn: k = (
    | numbers |
    numbers:: platform kernel Array new: k + 3.
    1 to: k + 3 do: [:i | numbers at: i put: i * k].
    kept:: {kept. numbers}.
    ^numbers
)
";

const OBJECTS: &str = "
class Square side: s = (| public side = s. |) (public area = (^side * side))
class Disk side: s = Square side: s () (public area = (^super area * 355 // 113))
class Doubled side: s = Square side: s (| public times ::= 2. |) (public area = (^super area * times))
class DoubledDisk side: s = Doubled <: Disk side: s () ()
public turn: k = (
    kept:: k \\\\ 2 = 0 ifTrue: [DoubledDisk side: k] ifFalse: [Doubled side: k].
    platform console printLine: kept area.
    ^kept
)
";

const MESSAGES: &str = "
class Counter = (| public count ::= 0. |) (
public add: n = (count:: count + n)
public take: n = (count:: count - n)
)
public turn: k = (
    | counter mirror |
    counter:: Counter new.
    mirror:: platform mirrors on: counter.
    1 to: 9 do: [:i | mirror perform: ({#add:. #take:. #add:} at: i + k \\\\ 3 + 1) with: {i}].
    platform console printLine: counter count.
    ^mirror selectors
)
";

const SEARCHES: &str = "
placeIn: numbers suchThat: test = (
    1 to: numbers size do: [:i | (test value: (numbers at: i)) ifTrue: [^i]].
    ^0
)
public turn: k = (^placeIn: {3. 1. 4. 1. 5. 9. 2. 6} suchThat: [:n | n > (k \\\\ 10)])
";

const TEXTS: &str = "
public turn: k = (
    | text |
    text:: 'item ' , k printString , ';'.
    platform console printLine: text.
    ^text copyFrom: 2 to: text size
)
";

const LISTS: &str = "
class Element value: n next: element = (| public value = n. public next = element. |) (
public length = (^next isNil ifTrue: [1] ifFalse: [1 + next length])
)
public turn: k = (
    kept:: Element value: k next: kept.
    platform console printLine: kept length.
    ^kept next
)
";

const BLOCKS: &str = "
public turn: k = (
    | count |
    count:: k.
    k \\\\ 5 = 4 ifTrue: [^kept value].
    kept:: [count:: count + 1. ^count].
    ^[:x | x + count]
)
";

const PROXIES: &str = "
class Tracer on: target over: p = (| private mirror = p mirrors on: target. private console = p console. |) (
doesNotUnderstand: message = (
    console printLine: message selector.
    ^mirror perform: message selector with: message arguments
)
)
public twice: k = (^{k. k})
public turn: k = (^(Tracer on: self over: platform) twice: k)
";

const SAME: &str = "
public turn: k = (
    | before |
    before:: kept.
    kept:: {before == kept. kept == self. self == self. k == 3. #a == #b. platform == platform. before}.
    ^before == kept ifTrue: [1] ifFalse: [kept at: 3]
)
";

const FAULTS: &str = "
public turn: k = (
    k \\\\ 4 = 1 ifTrue: [^k // 0].
    k \\\\ 4 = 2 ifTrue: [^k frobnicate].
    k \\\\ 4 = 3 ifTrue: [platform console printLine: k. ^{1. 2. 3} at: 4].
    ^self
)
";

const LIMITS: &str = "
fall: n = (^fall: n + 1)
public turn: k = (
    k \\\\ 3 = 0 ifTrue: [^fall: k].
    k \\\\ 3 = 1 ifTrue: [[true] whileTrue: [kept:: platform kernel Array new: 50]].
    [true] whileTrue: [platform console print: 'abc']
)
";
