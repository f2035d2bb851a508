//! Texts at the limits of `check` and one past them. Expected places were counted from the texts.

use crate::command::leaves;
use ns_base::no_memory::NoMemory;
use std::alloc::Global;

/// A text in which something stands many times, each time with a name that is longer by a letter.
struct Limit {
    head: &'static str,
    /// What stands before and behind each name.
    before: &'static str,
    behind: &'static str,
    tail: &'static str,
    /// How often it may stand, and how a text with one more is refused.
    most: u32,
    past: &'static str,
}

const LIMITS: [Limit; 7] = [
    Limit {
        head: "class T = () (a: y = (| ",
        before: "x",
        behind: " ",
        tail: "|))",
        most: 254,
        past: "T.ns:1:32918: TooMany(Locals)\n",
    },
    Limit {
        head: "class T = () (",
        before: "m",
        behind: " = () ",
        tail: ")",
        most: 1023,
        past: "T.ns:1:530952: TooMany(Members)\n",
    },
    // A slot that can be set is two members.
    Limit {
        head: "class T = (| ",
        before: "s",
        behind: " ",
        tail: "|) (m = ())",
        most: 511,
        past: "T.ns:1:131852: TooMany(Members)\n",
    },
    Limit {
        head: "class T = () (a = (^self ",
        before: "k",
        behind: ": 1 ",
        tail: "))",
        most: 63,
        past: "T.ns:1:2357: TooMany(Parameters)\n",
    },
    Limit {
        head: "class T = () (",
        before: "k: p",
        behind: " ",
        tail: "= ())",
        most: 63,
        past: "T.ns:1:2349: TooMany(Parameters)\n",
    },
    // Five classes each, and the one around them: 4,096.
    Limit {
        head: "class T = () (",
        before: "class C",
        behind: " = () (class A = () () class B = () () class D = () () class E = () ()) ",
        tail: ")",
        most: 819,
        past: "T.ns:1:400512: TooMany(Classes)\n",
    },
    Limit {
        head: "class T = () (a = (^{",
        before: "",
        behind: ". ",
        tail: "}))",
        most: 255,
        past: "T.ns:1:33172: TooMany(Elements)\n",
    },
];

#[test]
fn one_past_each_limit_is_refused(rt: HostRuntime) {
    assert!(rt; all_are_limits(rt.alloc()));
}

fn all_are_limits(alloc: Global) -> bool {
    LIMITS
        .iter()
        .all(|limit| is_limit(alloc, limit) == Ok(true))
}

fn is_limit(alloc: Global, limit: &Limit) -> Result<bool, NoMemory> {
    let most = repeated(alloc, limit, limit.most)?;
    let more = repeated(alloc, limit, limit.most.saturating_add(1))?;
    Ok(
        leaves(
            alloc,
            &[("T.ns", most.as_bytes())],
            ("check T.ns", "ok\n", "", 0),
        ) && leaves(
            alloc,
            &[("T.ns", more.as_bytes())],
            ("check T.ns", "", limit.past, 2),
        ),
    )
}

/// The text in which it stands so often.
fn repeated(alloc: Global, limit: &Limit, count: u32) -> Result<String, NoMemory> {
    let mut text = String::from_str(alloc, limit.head)?;
    let mut name = String::new(alloc);
    for _ in 0..count {
        name.push('x')?;
        push_one(&mut text, limit, name.as_str())?;
    }
    text.push_str(limit.tail)?;
    Ok(text)
}

fn push_one(text: &mut String, limit: &Limit, name: &str) -> Result<(), NoMemory> {
    text.push_str(limit.before)?;
    text.push_str(name)?;
    text.push_str(limit.behind)?;
    Ok(())
}

#[test]
fn a_source_has_at_most_a_mebibyte(rt: HostRuntime) {
    let alloc = rt.alloc();
    assert!(rt; tells_of_blanks(alloc, 1_048_577, "T.ns: TooLong\n"));
    assert!(rt; tells_of_blanks(alloc, 1_048_576, "T.ns:1:1048577: Syntax\n"));
}

/// Whether a source of so many blanks is refused with that line.
fn tells_of_blanks(alloc: Global, length: usize, line: &'static str) -> bool {
    match vec![in alloc; b' '; length] {
        Ok(blanks) => leaves(
            alloc,
            &[("T.ns", blanks.as_slice())],
            ("run T.ns", "", line, 2),
        ),
        Err(_) => false,
    }
}
