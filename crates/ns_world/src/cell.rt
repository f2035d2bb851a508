//! What a cell is made of.

use crate::value::Value;
use ns_base::selector::Sel;

/// A cell to be made: its kind, its size and its fixed parts. The words of an object, an
/// environment and an array begin as nil, the bytes of a text as 0. The base of a class is how many
/// entries the classes above it have, so that nothing has to count them again.
#[derive(Clone, Copy, PartialEq, Eq)]
pub enum NewCell {
    Object {
        class: u32,
        words: u32,
    },
    Class {
        decl: u32,
        base: u32,
        encl: Value,
        holder: Value,
        over: Value,
    },
    Block {
        body: u32,
        env: Value,
        home: u64,
        receiver: Value,
        holder: u32,
    },
    Environment {
        parent: Value,
        locals: u32,
    },
    Array {
        size: u32,
    },
    Text {
        bytes: u32,
    },
    Facet(FacetKind),
    Mirror(Value),
    Message {
        sel: Sel,
        args: Value,
    },
}

/// What a block was made with whose self is a cell, and around which is an environment or none: its body, that environment, the
/// home to which it returns, its self, and the holder.
#[derive(Clone, Copy)]
pub struct BlockParts {
    pub body: u32,
    pub env: Option<u32>,
    pub home: u64,
    pub receiver: u32,
    pub holder: u32,
}

/// The objects that stand for what the program may use of the outside.
#[derive(Clone, Copy, PartialEq, Eq)]
pub enum FacetKind {
    Manifest,
    Platform,
    Console,
    Mirrors,
    Kernel,
    Board,
}

/// The cell's size would pass the limit on cells.
#[derive(Clone, Copy)]
pub struct CellLimit;
