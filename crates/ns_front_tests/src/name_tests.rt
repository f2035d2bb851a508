//! What names mean in the bodies of programs. The expected answers are those of the language's worked examples.

use crate::reading::read;
use ns_base::items::Items;
use ns_base::key::Key;
use ns_parse_tokens::fault::ParseFault;
use ns_scope::program::Program;
use ns_scope::resolve::Target;
use ns_scope_bodies::bodies::scopes;
use ns_scope_bodies::scopes::{BodyId, Scopes};
use std::alloc::Global;

/// `who` is what the enclosing class W declares, and not what In inherits from Base. Its bodies are W:
/// the initialiser, who, main:args:; Base: the initialiser, who; In: the clause, the initialiser, ask.
const INHERITING: &str = "class W packageUsing: m = () (
who = (^'outer')
class Base = () (public who = (^'inherited'))
class In = Base () (public ask = (^who))
public main: p args: a = (p console printLine: In new ask)
)";

/// A private member is told as such, a local hides it, and a class side sees its own members at its
/// own level alone. The bodies are R: the initialiser and its block, m and its two blocks; C: the
/// initialiser, n, k, j.
const HIDING: &str = "class R packageUsing: x = (| private y ::= [:v | v + x]. |) (
private m = (^[:m :y | [| z = m. | z + y]])
class C = () (n = (^m)) : (k = (^j) j = (^m))
)";

const LOCAL: Target = Target::Local { hops: 0, index: 0 };

const SECOND_LOCAL: Target = Target::Local { hops: 0, index: 1 };

/// A local of the body around.
const OUTER_LOCAL: Target = Target::Local { hops: 1, index: 0 };

const SECOND_OUTER_LOCAL: Target = Target::Local { hops: 1, index: 1 };

const MEMBER: Target = Target::Member {
    level: 0,
    private: false,
};

/// A member of the class around.
const OUTER_MEMBER: Target = Target::Member {
    level: 1,
    private: false,
};

const PRIVATE: Target = Target::Member {
    level: 0,
    private: true,
};

const OUTER_PRIVATE: Target = Target::Member {
    level: 1,
    private: true,
};

/// A body, a name in it, and what it means.
type Row = (u32, &'static str, Target);

const INHERITED: &[Row] = &[
    (7, "who", OUTER_MEMBER),
    (7, "ask", MEMBER),
    (7, "foo", Target::SelfSend),
    (5, "ask", Target::SelfSend),
    (5, "Base", MEMBER),
    (0, "m", LOCAL),
    (1, "m", Target::SelfSend),
    (2, "a", SECOND_LOCAL),
    (2, "packageUsing:", Target::SelfSend),
];

const HIDDEN: &[Row] = &[
    (1, "v", LOCAL),
    (1, "x", OUTER_LOCAL),
    (1, "y:", PRIVATE),
    (2, "m", PRIVATE),
    (3, "m", LOCAL),
    (4, "m", OUTER_LOCAL),
    (4, "y", SECOND_OUTER_LOCAL),
    (4, "z", LOCAL),
    (6, "m", OUTER_PRIVATE),
    (6, "j", Target::SelfSend),
    (7, "j", MEMBER),
    (7, "n", Target::SelfSend),
    (7, "y", OUTER_PRIVATE),
];

/// A source, how many bodies it has, and what names mean in them.
const PROGRAMS: [(&str, u32, &[Row]); 2] = [(INHERITING, 8, INHERITED), (HIDING, 9, HIDDEN)];

#[test]
fn names_mean_what_stands_around_them(rt: HostRuntime) {
    for (source, bodies, rows) in PROGRAMS {
        assert_eq!(rt;
            first_meant_otherwise(rt.alloc(), source, bodies, rows),
            None
        );
    }
}

/// The first name that doesn't mean what its row says, or the source where it isn't a program of so
/// many bodies.
fn first_meant_otherwise(
    alloc: Global,
    source: &'static str,
    bodies: u32,
    rows: &[Row],
) -> Option<&'static str> {
    match scopes_of(alloc, source) {
        Ok(scopes) if scopes.bodies() == bodies => first_other(&scopes, rows),
        _ => Some(source),
    }
}

fn first_other(scopes: &Scopes, rows: &[Row]) -> Option<&'static str> {
    for (body, name, target) in rows {
        if !means(scopes, *body, name, *target) {
            return Some(name);
        }
    }
    None
}

fn means(scopes: &Scopes, body: u32, name: &str, target: Target) -> bool {
    if body >= scopes.bodies() {
        return false;
    }
    scopes.resolve(BodyId(body), name.as_bytes()) == target
}

/// The scopes of the program of one file.
fn scopes_of(alloc: Global, source: &str) -> Result<Scopes, ParseFault> {
    let mut units = Vec::new(alloc);
    units.push(read(alloc, source.as_bytes())?)?;
    let program = Program {
        units: Items::from_vec(units),
        files: Items::from_vec(Vec::new(alloc)),
        marks: Items::from_vec(Vec::new(alloc)),
        key: Key::of(source.as_bytes()),
    };
    Ok(scopes(alloc, &program)?)
}
