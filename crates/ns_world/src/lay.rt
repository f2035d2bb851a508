//! Laying cells out in words.

ghost use Rattle.std.specs.Prelude.{◌≡◌, ◌+◌, ◌^◌, ◌<◌, ◌≤◌, [], ◌∷◌, ◌++◌, map, replicate, length, vec_len};
ghost use Rattle.std.specs.Vec.{vec_capacity};
ghost use Rattle.ns_world.specs.Cell.{cell_size, fresh, text_words, filled_environment, ClassCell, BlockCell, ArrayCell, TextCell};
ghost use Rattle.ns_world.specs.declared.cell.NewCell.TheVariants.{Object, Environment, Array, Text};
ghost use Rattle.ns_world.specs.Words.{word_of, words_of, packed};

use crate::cell::NewCell;
use crate::pack::cut_word;
use crate::value::Value;
use crate::word::{Word, word_beside, word_of};

/// How many words a cell takes.
#[inline(always)]
pub fn size_of_cell(cell: NewCell) -> u64
    ensures { result ≡ cell_size (fresh cell) }
{
    match cell {
        NewCell::Object { words, .. } => 1 + u64::from(words),
        NewCell::Class { .. } => 4,
        NewCell::Block { .. } => 3,
        NewCell::Environment { locals, .. } => 1 + u64::from(locals),
        NewCell::Array { size } => 1 + u64::from(size),
        NewCell::Text { bytes } => 1 + text_words(bytes),
        NewCell::Facet(_) => 1,
        NewCell::Mirror(_) => 2,
        NewCell::Message { .. } => 3,
    }
}

/// How many words the bytes of a text take.
pub fn text_words(bytes: u32) -> u64
    ensures { result ≡ text_words bytes }
{
    (u64::from(bytes) + 7) / 8
}

/// Puts the words of a new cell behind the others. There is room for them.
#[inline(always)]
pub fn lay(words: &mut Vec<Word>, cell: NewCell)
    requires { vec_len words.old + cell_size (fresh cell) ≤ vec_capacity words.old }
    ensures items { words.new.items ≡ words.old.items ++ words_of (fresh cell) }
    ensures capacity { vec_capacity words.old ≤ vec_capacity words.new }
{
    match cell {
        NewCell::Object {
            class,
            words: count,
        } => lay_object(words, class, count),
        NewCell::Class {
            decl,
            base,
            encl,
            holder,
            over,
        } => lay_class(words, decl, base, encl, holder, over),
        NewCell::Block {
            body,
            env,
            home,
            receiver,
            holder,
        } => lay_block(words, body, env, home, receiver, holder),
        NewCell::Environment { parent, locals } => lay_environment(words, parent, locals),
        NewCell::Array { size } => lay_array(words, size),
        NewCell::Text { bytes } => lay_text(words, bytes),
        NewCell::Facet(kind) => put(words, &[Word::Facet(kind)]),
        NewCell::Mirror(mirrored) => put(words, &[Word::Mirror, word_of(mirrored)]),
        NewCell::Message { sel, args } => put(words, &[Word::Message(sel), word_of(args), NIL]),
    }
}

const NIL: Word = Word::Nil;

/// An object's words begin as nil.
fn lay_object(words: &mut Vec<Word>, class: u32, count: u32)
    requires { vec_len words.old + (1 + count) ≤ vec_capacity words.old }
    ensures items { words.new.items ≡ words.old.items ++ words_of (fresh (Object class count)) }
    ensures capacity { vec_capacity words.old ≤ vec_capacity words.new }
{
    fill(
        words,
        Word::Object {
            class,
            words: count,
        },
        u64::from(count),
        NIL,
    );
}

fn lay_class(words: &mut Vec<Word>, decl: u32, base: u32, encl: Value, holder: Value, over: Value)
    requires { vec_len words.old + 4 ≤ vec_capacity words.old }
    ensures items { words.new.items ≡ words.old.items ++ words_of (ClassCell decl base encl holder over) }
    ensures capacity { vec_capacity words.old ≤ vec_capacity words.new }
{
    let head = Word::Class { decl, base };
    put(
        words,
        &[head, word_of(encl), word_of(holder), word_of(over)],
    );
}

#[inline(always)]
fn lay_block(words: &mut Vec<Word>, body: u32, env: Value, home: u64, receiver: Value, holder: u32)
    requires { vec_len words.old + 3 ≤ vec_capacity words.old }
    ensures items { words.new.items ≡ words.old.items ++ words_of (BlockCell body env home receiver holder) }
    ensures capacity { vec_capacity words.old ≤ vec_capacity words.new }
{
    words.push_reserved(Word::Block { body, home });
    words.push_reserved(word_of(receiver));
    words.push_reserved(word_beside(env, holder));
}

/// The parent of an environment stands in its head, with the number of locals beside it.
#[tactic(auto, using(crate::proofs::Freshly::new_environment_words))]
fn lay_environment(words: &mut Vec<Word>, parent: Value, locals: u32)
    requires { vec_len words.old + (1 + locals) ≤ vec_capacity words.old }
    ensures items { words.new.items ≡ words.old.items ++ words_of (fresh (Environment parent locals)) }
    ensures capacity { vec_capacity words.old ≤ vec_capacity words.new }
{
    fill(words, word_beside(parent, locals), u64::from(locals), NIL);
}

#[tactic(auto, using(crate::proofs::Freshly::new_array_words))]
fn lay_array(words: &mut Vec<Word>, size: u32)
    requires { vec_len words.old + (1 + size) ≤ vec_capacity words.old }
    ensures items { words.new.items ≡ words.old.items ++ words_of (fresh (Array size)) }
    ensures capacity { vec_capacity words.old ≤ vec_capacity words.new }
{
    fill(words, Word::Array { size }, u64::from(size), NIL);
}

/// A text's bytes begin as 0, eight in a word.
#[tactic(auto, using(crate::proofs::Freshly::new_text_words))]
fn lay_text(words: &mut Vec<Word>, bytes: u32)
    requires { vec_len words.old + (1 + text_words bytes) ≤ vec_capacity words.old }
    ensures items { words.new.items ≡ words.old.items ++ words_of (fresh (Text bytes)) }
    ensures capacity { vec_capacity words.old ≤ vec_capacity words.new }
{
    fill(
        words,
        Word::Text { bytes },
        text_words(bytes),
        Word::Bytes([0; 8]),
    );
}

/// Puts a row of words behind the others.
fn put(words: &mut Vec<Word>, row: &[Word])
    requires { vec_len words.old + length row.now ≤ vec_capacity words.old }
    ensures items { words.new.items ≡ words.old.items ++ row.now }
    ensures capacity { vec_capacity words.old ≤ vec_capacity words.new }
{
    let _put = words.extend_from_slice(row);
}

/// Puts a head and so many equal words behind the others.
fn fill(words: &mut Vec<Word>, head: Word, count: u64, word: Word)
    requires { vec_len words.old + (1 + count) ≤ vec_capacity words.old }
    ensures items { words.new.items ≡ words.old.items ++ head ∷ replicate count word }
    ensures capacity { vec_capacity words.old ≤ vec_capacity words.new }
{
    words.push_reserved(head);
    repeat(words, count, word);
}

/// Puts so many equal words behind the others.
fn repeat(words: &mut Vec<Word>, count: u64, word: Word)
    requires { vec_len words.old + count ≤ vec_capacity words.old }
    ensures items { words.new.items ≡ words.old.items ++ replicate count word }
    ensures capacity { vec_capacity words.old ≤ vec_capacity words.new }
{
    'filling: for _ in 0..count {
        words.push_reserved(word);
    }
}

/// Puts the words of values behind the others.
#[inline(always)]
fn put_values(words: &mut Vec<Word>, values: &[Value])
    requires { vec_len words.old + length values.now ≤ vec_capacity words.old }
    ensures items { words.new.items ≡ words.old.items ++ map word_of values.now }
    ensures capacity { vec_capacity words.old ≤ vec_capacity words.new }
{
    'values: for value in values {
        put_value(words, value);
    }
}

/// Puts the word of a value behind the others. Most are Integers or refer to cells.
#[inline(always)]
fn put_value(words: &mut Vec<Word>, value: &Value)
    requires { vec_len words.old + 1 ≤ vec_capacity words.old }
    ensures items { words.new.items ≡ words.old.items ++ word_of value.now ∷ [] }
    ensures capacity { vec_capacity words.new ≡ vec_capacity words.old }
{
    match value {
        Value::Int(number) => words.push_reserved(Word::Int(*number)),
        other => put_other(words, other),
    }
}

/// The same by a second question, each of which has two answers: so no jump tells the kinds of values apart.
#[inline(always)]
fn put_other(words: &mut Vec<Word>, value: &Value)
    requires { vec_len words.old + 1 ≤ vec_capacity words.old }
    ensures items { words.new.items ≡ words.old.items ++ word_of value.now ∷ [] }
    ensures capacity { vec_capacity words.new ≡ vec_capacity words.old }
{
    match value {
        Value::Ref(at) => words.push_reserved(Word::Ref(*at)),
        other => put_apart(words, other),
    }
}

/// The same for any value, in code of its own.
#[inline(never)]
fn put_apart(words: &mut Vec<Word>, value: &Value)
    requires { vec_len words.old + 1 ≤ vec_capacity words.old }
    ensures items { words.new.items ≡ words.old.items ++ word_of value.now ∷ [] }
    ensures capacity { vec_capacity words.new ≡ vec_capacity words.old }
{
    words.push_reserved(word_of(*value));
}

/// Puts the words of an array that holds these values behind the others.
pub fn lay_items(words: &mut Vec<Word>, items: &[Value])
    requires room { vec_len words.old + (1 + length items.now) ≤ vec_capacity words.old }
    requires small { length items.now < 2 ^ 32 }
    ensures items { words.new.items ≡ words.old.items ++ words_of (ArrayCell items.now) }
    ensures capacity { vec_capacity words.old ≤ vec_capacity words.new }
{
    words.push_reserved(Word::Array {
        size: items.len() as u32,
    });
    put_values(words, items);
}

/// Puts the words of an environment behind the others whose first locals hold these values, and
/// so many others nil.
#[inline(always)]
pub fn lay_locals(words: &mut Vec<Word>, parent: Value, first: &[Value], others: u32)
    requires room { vec_len words.old + (1 + (length first.now + others)) ≤ vec_capacity words.old }
    requires small { length first.now + others < 2 ^ 32 }
    ensures items { words.new.items ≡ words.old.items ++ words_of (filled_environment parent first.now others) }
    ensures capacity { vec_capacity words.old ≤ vec_capacity words.new }
{
    words.push_reserved(word_beside(parent, first.len() as u32 + others));
    put_values(words, first);
    repeat(words, u64::from(others), NIL);
}

/// Puts the words of a text of a row of bytes, and another behind it, behind the others.
pub fn lay_bytes(words: &mut Vec<Word>, first: &[u8], second: &[u8])
    requires room { vec_len words.old + (1 + text_words (length (first.now ++ second.now))) ≤ vec_capacity words.old }
    requires small { length (first.now ++ second.now) < 2 ^ 32 }
    ensures items { words.new.items ≡ words.old.items ++ words_of (TextCell (first.now ++ second.now)) }
    ensures capacity { vec_capacity words.old ≤ vec_capacity words.new }
{
    let bytes = first.len() as u32 + second.len() as u32;
    words.push_reserved(Word::Text { bytes });
    pack(words, text_words(bytes), first, second);
}

/// Puts a row of bytes, and another behind it, in so many words behind the others.
fn pack(words: &mut Vec<Word>, count: u64, first: &[u8], second: &[u8])
    requires { vec_len words.old + count ≤ vec_capacity words.old }
    ensures items { words.new.items ≡ words.old.items ++ packed count (first.now ++ second.now) }
    ensures capacity { vec_capacity words.old ≤ vec_capacity words.new }
{
    let mut left = first;
    let mut others = second;
    'words: for _ in 0..count {
        let (word, rest, others_left) = cut_word(left, others);
        words.push_reserved(Word::Bytes(word));
        left = rest;
        others = others_left;
    }
}
