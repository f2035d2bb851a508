//! What is listed: code, and its texts in quotes.

ghost use Rattle.std.specs.Prelude.{◌≡◌, IfOk, codes, map, slice_get};
ghost use Rattle.std.specs.Option.{option_map_or};
ghost use Rattle.ns_base.specs.Quoted.{quoted};
ghost use Rattle.ns_image_list.specs.Listing as spec;

use ns_base::no_memory::NoMemory;
use ns_base::quoted::put_quoted;
use ns_base::selector::Sel;
use ns_base::text::Text;
use ns_code::body::BodyCode;
use ns_code::class::ClassCode;
use ns_code::program::CodeProgram;
use std::alloc::Global;
use std::marker::Model;

/// Code whose texts are quoted once, however many instructions push them. A clause sees the code.
#[derive(Drop)]
pub struct Source<'a> {
    code: &'a CodeProgram,
    quoted: Vec<Text>,
}

impl<'a> Model for Source<'a> {
    ghost use Rattle.std.specs.Prelude.{◌≡◌};
    ghost use Rattle.ns_code.specs.declared.program.CodeProgram.{CodeProgram};
    ghost use Rattle.ns_image_list.specs.Listing.{all_quoted};

    ghost Value = { CodeProgram };

    ghost view = { λ source. source.code.now };

    ghost invariant = { λ source. source.quoted.items ≡ all_quoted source.code.now };
}

impl Source<'_> {
    /// The source of this code's listing.
    pub fn new(alloc: Global, code: &CodeProgram) -> Result<Source<'_>, NoMemory>
        ensures { IfOk result (λ source. source ≡ code.now) }
    {
        let quoted = quoted_texts(alloc, code.texts.as_slice())?;
        Ok(Source { code, quoted })
    }

    /// The code.
    pub fn code(&self) -> &CodeProgram
        ensures { result.now ≡ self.now }
    {
        self.code
    }

    /// Its classes.
    pub fn classes(&self) -> &[ClassCode]
        ensures { result.now ≡ self.now.classes }
    {
        self.code.classes.as_slice()
    }

    /// Its bodies.
    pub fn bodies(&self) -> &[BodyCode]
        ensures { result.now ≡ self.now.bodies }
    {
        self.code.bodies.as_slice()
    }

    /// The name of that number, or a question mark where there is none.
    pub fn name(&self, sel: Sel) -> &[u8]
        ensures { result.now ≡ spec.name_shown self.now sel.0 }
    {
        text_or_mark(self.code.names.as_slice(), sel.0)
    }

    /// The text of that number in quotes, or a question mark where there is none.
    #[tactic(auto, using(crate::proofs::Quotes::quoted_at))]
    pub fn text(&self, number: u32) -> &[u8]
        ensures { result.now ≡ spec.text_shown self.now number }
    {
        text_or_mark(self.quoted.as_slice(), number)
    }
}

/// The text of that number, or a question mark where there is none.
fn text_or_mark(texts: &[Text], number: u32) -> &[u8]
    ensures { result.now ≡ option_map_or (λ text. text) (slice_get texts.now number) (codes "?") }
{
    match texts.get(number as usize) {
        None => b"?".as_slice(),
        Some(text) => text.bytes(),
    }
}

/// These texts in quotes.
fn quoted_texts(alloc: Global, texts: &[Text]) -> Result<Vec<Text>, NoMemory>
    ensures { IfOk result (λ all. all.items ≡ map quoted texts.now) }
{
    let mut all = Vec::with_capacity(alloc, texts.len())?;
    'texts: for text in texts {
        all.push(quoted_text(alloc, text.bytes())?)?;
    }
    Ok(all)
}

fn quoted_text(alloc: Global, bytes: &[u8]) -> Result<Text, NoMemory>
    ensures { IfOk result (λ text. text ≡ quoted bytes.now) }
{
    let mut text = Vec::new(alloc);
    put_quoted(&mut text, bytes)?;
    Ok(Text::from_vec(text))
}
