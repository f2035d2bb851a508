//! Where a listing goes, and how words and numbers are put there, each behind the bytes that are there.

ghost use Rattle.std.specs.Prelude.{◌≡◌, ◌++◌, ◌∷◌, [], IfOk, OnOk};
ghost use Rattle.std.specs.Fmt.{signed_decimal};
ghost use Rattle.ns_image_list.specs.Listing as spec;
ghost use Rattle.ns_image_list.specs.Output.{Counted, Written, after, counted, written};

use ns_base::no_memory::NoMemory;
use std::alloc::Global;
use std::marker::Model;

/// Bytes that are counted, or written into room that was asked for once.
#[derive(Drop)]
pub struct Output {
    kept: Kept,
    pub(crate) alloc: Global,
}

#[derive(Drop)]
enum Kept {
    Counted(usize),
    Written(Vec<u8>),
}

impl Model for Output {
    ghost use Rattle.ns_image_list.specs.Output.{Shown, shown};

    ghost Value = { Shown };

    ghost view = { λ output. shown output.kept };
}

impl Output {
    /// Nothing yet, and what is put will be counted.
    pub fn counting(alloc: Global) -> Output
        ensures { result ≡ Counted 0 }
    {
        Output {
            kept: Kept::Counted(0),
            alloc,
        }
    }

    /// Nothing yet, with room for so many bytes, or an error where there is no such room.
    pub fn with_room(alloc: Global, length: usize) -> Result<Output, NoMemory>
        ensures { IfOk result (λ output. output ≡ Written []) }
    {
        let room = Vec::with_capacity(alloc, length)?;
        Ok(Output {
            kept: Kept::Written(room),
            alloc,
        })
    }

    /// Where its memory comes from.
    pub fn alloc(&self) -> Global {
        self.alloc
    }

    /// How many bytes were counted.
    pub fn counted(&self) -> usize
        ensures { result ≡ counted self.now }
    {
        match &self.kept {
            Kept::Counted(length) => *length,
            Kept::Written(_) => 0,
        }
    }

    /// The bytes that were written.
    pub fn into_bytes(self) -> Vec<u8>
        ensures { result.items ≡ written self }
    {
        match self.kept {
            Kept::Counted(_) => Vec::new(self.alloc),
            Kept::Written(bytes) => bytes,
        }
    }

    /// Puts a text.
    pub fn put(&mut self, text: &[u8]) -> Result<(), NoMemory>
        ensures { OnOk result (self.new ≡ after self.old text.now) }
    {
        match &mut self.kept {
            Kept::Counted(length) => *length = length.saturating_add(text.len()),
            Kept::Written(bytes) => bytes.extend_from_slice(text)?,
        }
        Ok(())
    }

    /// Puts a line feed.
    pub fn end_line(&mut self) -> Result<(), NoMemory>
        ensures { OnOk result (self.new ≡ after self.old (10 ∷ [])) }
    {
        self.put(b"\n")
    }

    /// Puts a number in decimal, behind a blank.
    pub fn put_number(&mut self, number: u64) -> Result<(), NoMemory>
        ensures { OnOk result (self.new ≡ after self.old (spec.number number)) }
    {
        let digits = number.to_string(self.alloc)?;
        self.put_behind_blank(digits.as_bytes())
    }

    /// Puts a word, and a number in decimal behind a blank.
    pub fn put_counted(&mut self, word: &[u8], number: u64) -> Result<(), NoMemory>
        ensures { OnOk result (self.new ≡ after self.old (word.now ++ spec.number number)) }
    {
        self.put(word)?;
        self.put_number(number)
    }

    /// Puts a signed number in decimal, behind a blank.
    pub fn put_signed(&mut self, number: i64) -> Result<(), NoMemory>
        ensures { OnOk result (self.new ≡ after self.old (32 ∷ signed_decimal number)) }
    {
        let digits = number.to_string(self.alloc)?;
        self.put_behind_blank(digits.as_bytes())
    }

    /// Puts a text behind a blank.
    pub fn put_behind_blank(&mut self, text: &[u8]) -> Result<(), NoMemory>
        ensures { OnOk result (self.new ≡ after self.old (32 ∷ text.now)) }
    {
        self.put(b" ")?;
        self.put(text)
    }
}
