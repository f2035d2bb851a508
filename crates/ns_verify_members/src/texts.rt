//! Whether texts differ.

ghost use Rattle.std.specs.Prelude.{◌≡◌, IfOk, OnOk, not};
ghost use Rattle.ns_base.specs.Names.{has, put_in};
ghost use Rattle.ns_code.specs.Soundness.{are_different};

use ns_base::key::Key;
use ns_base::no_memory::NoMemory;
use ns_base::text::Text;
use ns_base::text_set::TextSet;
use std::alloc::Global;

/// Whether no text comes twice.
#[tactic(auto, using(crate::proofs::Different::new_at_first))]
pub fn are_different(alloc: Global, texts: &[Text]) -> Result<bool, NoMemory>
    ensures { IfOk result (λ different. different ≡ are_different texts.now) }
{
    let mut seen = TextSet::new(alloc, Key::of_texts(texts));
    'texts: for text in texts {
        if !put(alloc, &mut seen, text)? {
            return Ok(false);
        }
    }
    Ok(true)
}

/// Puts a text in, unless it is there. Tells whether it is new.
fn put(alloc: Global, seen: &mut TextSet, text: &Text) -> Result<bool, NoMemory>
    ensures new { IfOk result (λ new. new ≡ not (has seen.old text.now)) }
    ensures put { OnOk result (seen.new ≡ put_in seen.old text.now) }
{
    if seen.find(text.bytes()).is_some() {
        return Ok(false);
    }
    seen.add(Text::of(alloc, text.bytes())?)?;
    Ok(true)
}
