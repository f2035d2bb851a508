//! The sample of N: a program of any size, to try the compiler and the machine with.

ghost use Rattle.std.specs.Prelude.{◌≡◌, ◌≤◌, ◌<◌, ◌++◌, ◌∷◌, [], IfOk, OnOk};
ghost use Rattle.ns_lib.specs.Sample as spec;

use ns_base::no_memory::NoMemory;
use std::alloc::Global;

/// The length of a chain of classes.
const CHAIN: u32 = 200;

/// The source of the sample of n: n classes in chains of up to 200, and a sum over them.
pub fn sample(alloc: Global, n: u32) -> Result<Vec<u8>, NoMemory>
    requires least { 1 ≤ n }
    requires most { n ≤ 1000 }
    ensures { IfOk result (λ text. text.items ≡ spec.sample n) }
{
    let mut text = Vec::new(alloc);
    put(&mut text, b"class Sample packageUsing: m = () (\n")?;
    put_classes(&mut text, n)?;
    put(&mut text, b"public main: p args: a = (\n| s ::= 0. |\n")?;
    put_sums(&mut text, n)?;
    put(&mut text, b"p console printLine: s.\n^s)\n)\n")?;
    Ok(text)
}

fn put(text: &mut Vec<u8>, bytes: &[u8]) -> Result<(), NoMemory>
    ensures { OnOk result (text.new.items ≡ text.old.items ++ bytes.now) }
{
    text.extend_from_slice(bytes)?;
    Ok(())
}

/// The lines of the classes whose numbers are below n.
#[tactic(auto, using(crate::proofs::SampleLaws::one_line_more))]
fn put_classes(text: &mut Vec<u8>, n: u32) -> Result<(), NoMemory>
    ensures { OnOk result (text.new.items ≡ text.old.items ++ spec.lines_below spec.class_line n) }
{
    for k in 0..n {
        put_class(text, k)?;
    }
    Ok(())
}

/// The line of class k.
fn put_class(text: &mut Vec<u8>, k: u32) -> Result<(), NoMemory>
    ensures { OnOk result (text.new.items ≡ text.old.items ++ spec.class_line k ++ 10 ∷ []) }
{
    if k % CHAIN == 0 {
        put_first(text, k)
    } else {
        put_next(text, k, k - 1)
    }
}

fn put_first(text: &mut Vec<u8>, k: u32) -> Result<(), NoMemory>
    ensures { OnOk result (text.new.items ≡ text.old.items ++ spec.first_class k ++ 10 ∷ []) }
{
    let alloc = *text.allocator();
    let line = format!(in alloc; "class C{k} = () (public v: x = (^x + 1))\n")?;
    put(text, line.as_bytes())
}

fn put_next(text: &mut Vec<u8>, k: u32, above: u32) -> Result<(), NoMemory>
    ensures { OnOk result (text.new.items ≡ text.old.items ++ spec.next_class k above ++ 10 ∷ []) }
{
    let alloc = *text.allocator();
    let head = format!(in alloc; "class C{k} = C")?;
    put(text, head.as_bytes())?;
    let above = above.to_string(alloc)?;
    put(text, above.as_bytes())?;
    put(text, b" () (public v: x = (^(super v: x) + 1))\n")
}

/// The lines that add what the classes whose numbers are below n answer.
#[tactic(auto, using(crate::proofs::SampleLaws::one_line_more))]
fn put_sums(text: &mut Vec<u8>, n: u32) -> Result<(), NoMemory>
    ensures { OnOk result (text.new.items ≡ text.old.items ++ spec.lines_below spec.sum_line n) }
{
    for k in 0..n {
        put_sum(text, k)?;
    }
    Ok(())
}

/// The line that adds what class k answers.
fn put_sum(text: &mut Vec<u8>, k: u32) -> Result<(), NoMemory>
    ensures { OnOk result (text.new.items ≡ text.old.items ++ spec.sum_line k ++ 10 ∷ []) }
{
    let alloc = *text.allocator();
    let line = format!(in alloc; "s:: s + (C{k} new v: {k}).\n")?;
    put(text, line.as_bytes())
}
