//! The bytes that are left, and the single fields that are read from them.

ghost use Rattle.ns_image.specs.Read as spec;
ghost use Rattle.ns_image.specs.Reading.{selector};
ghost use Rattle.ns_image.specs.Reads.{ReadsBytes, ReadsAs};

use crate::fault::Fault;
use ns_base::selector::Sel;

/// The bytes that are left. After a fault they are of no use.
#[derive(Drop)]
pub struct Input<'a> {
    pub rest: &'a [u8],
}

impl<'a> Input<'a> {
    /// So many bytes.
    pub fn taken(&mut self, count: usize) -> Result<&'a [u8], Fault>
        ensures { ReadsAs (λ bytes. bytes.now) (spec.taken count self.old.rest.now) result self.new.rest.now }
    {
        if self.rest.len() < count {
            return Err(Fault::Truncated);
        }
        let (front, rest) = self.rest.split_at(count);
        self.rest = rest;
        Ok(front)
    }

    /// A number of one byte.
    pub fn byte(&mut self) -> Result<u8, Fault>
        ensures { ReadsBytes (spec.byte self.old.rest.now) result self.new.rest.now }
    {
        let bytes = self.taken(1)?;
        Ok(u8::from_be_bytes([bytes[0]]))
    }

    /// A number of two bytes.
    pub fn half(&mut self) -> Result<u16, Fault>
        ensures { ReadsBytes (spec.half self.old.rest.now) result self.new.rest.now }
    {
        let bytes = self.taken(2)?;
        Ok(u16::from_be_bytes([bytes[0], bytes[1]]))
    }

    /// A number of four bytes.
    pub fn word(&mut self) -> Result<u32, Fault>
        ensures { ReadsBytes (spec.word self.old.rest.now) result self.new.rest.now }
    {
        let bytes = self.taken(4)?;
        Ok(u32::from_be_bytes([bytes[0], bytes[1], bytes[2], bytes[3]]))
    }

    /// A signed number of eight bytes.
    pub fn long(&mut self) -> Result<i64, Fault>
        ensures { ReadsBytes (spec.long self.old.rest.now) result self.new.rest.now }
    {
        let bytes = self.taken(8)?;
        Ok(i64::from_be_bytes([
            bytes[0], bytes[1], bytes[2], bytes[3], bytes[4], bytes[5], bytes[6], bytes[7],
        ]))
    }

    /// A number of one byte, which is bad above the greatest.
    pub fn byte_up_to(&mut self, most: u8) -> Result<u8, Fault>
        ensures { ReadsBytes (spec.byte_up_to most self.old.rest.now) result self.new.rest.now }
    {
        let left = self.rest.len();
        let number = self.byte()?;
        if number > most {
            return Err(Fault::Bad(left));
        }
        Ok(number)
    }

    /// A number of four bytes, which is bad above the greatest.
    pub fn word_up_to(&mut self, most: u32) -> Result<u32, Fault>
        ensures { ReadsBytes (spec.word_up_to most self.old.rest.now) result self.new.rest.now }
    {
        let left = self.rest.len();
        let number = self.word()?;
        if number > most {
            return Err(Fault::Bad(left));
        }
        Ok(number)
    }

    /// 0 for false, 1 for true.
    #[tactic(auto, unfolding(crate::specs::Read::flag))]
    pub fn flag(&mut self) -> Result<bool, Fault>
        ensures { ReadsBytes (spec.flag self.old.rest.now) result self.new.rest.now }
    {
        let number = self.byte_up_to(1)?;
        Ok(number == 1)
    }

    /// 0 for none, else a number and 1.
    #[tactic(auto, unfolding(crate::specs::Read::reference))]
    pub fn reference(&mut self) -> Result<Option<u32>, Fault>
        ensures { ReadsBytes (spec.reference self.old.rest.now) result self.new.rest.now }
    {
        let number = self.word()?;
        Ok(number.checked_sub(1))
    }

    /// The number of a name.
    pub fn sel(&mut self) -> Result<Sel, Fault>
        ensures { ReadsBytes (selector self.old.rest.now) result self.new.rest.now }
    {
        let number = self.word()?;
        Ok(Sel(number))
    }

    /// A text behind its length.
    #[tactic(auto, unfolding(crate::specs::Read::text))]
    pub fn text(&mut self) -> Result<&'a [u8], Fault>
        ensures { ReadsAs (λ bytes. bytes.now) (spec.text self.old.rest.now) result self.new.rest.now }
    {
        let length = self.word()?;
        self.taken(length as usize)
    }
}
