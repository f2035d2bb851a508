//! The code of a body, from the lines that were written.

ghost use Rattle.std.specs.Prelude.{◌≡◌, ◌<◌, ◌≤◌, max, IfOk, IfSome, IfNone};
ghost use Rattle.ns_gen_code.specs.Code.{height_before_next, greatest_height, with_code};
ghost use Rattle.ns_gen_code.specs.Sizes.{most_height};
ghost use Rattle.ns_gen_bodies.specs.Finishing.{finished};

use ns_base::items::Items;
use ns_base::no_memory::NoMemory;
use ns_code::body::BodyCode;
use ns_code::instruction::Instr;
use ns_code::instructions::Instructions;
use ns_code::table::{goes_on, height_after};
use ns_gen_code::size::SizeKind;
use ns_gen_draft::writer::{MOST_LINES, Writer};

/// The greatest height of a body that can run.
const HIGHEST: u32 = 1023;

/// The code of a body, or what of it is too large.
#[derive(Drop)]
pub enum Finished {
    Fits(BodyCode),
    TooLarge(SizeKind),
}

/// The code of the body with this head, whose lines were written.
#[tactic(auto, using(crate::specs::laws::Finishing::too_long, crate::proofs::Finishing::too_high, crate::proofs::Finishing::fits))]
pub fn finish(writer: &Writer, head: BodyCode) -> Result<Finished, NoMemory>
    ensures { IfOk result (λ done. done ≡ finished (with_code writer.now.names head writer.now.lines)) }
{
    if writer.line_count() > MOST_LINES {
        return Ok(Finished::TooLarge(SizeKind::Code));
    }
    let instrs = writer.instructions()?;
    match greatest_height(&instrs) {
        None => Ok(Finished::TooLarge(SizeKind::Height)),
        Some(height) => {
            let places = writer.places()?;
            Ok(Finished::Fits(BodyCode {
                height,
                instrs: Instructions::of(*instrs.allocator(), &instrs)?,
                places: Items::from_vec(places),
                ..head
            }))
        }
    }
}

/// The greatest height of instructions without jumps, unless no body with it can run.
fn greatest_height(instrs: &[Instr]) -> Option<u16>
    ensures found { IfSome result (λ height. height ≡ greatest_height 0 instrs.now) }
    ensures low { IfSome result (λ height. height ≤ most_height) }
    ensures high { IfNone result (most_height < greatest_height 0 instrs.now) }
{
    let mut greatest: u32 = 0;
    let mut height: u32 = 0;
    for instr in instrs {
        greatest = greater(greatest, height);
        if greatest > HIGHEST {
            return None;
        }
        height = height_before_next(*instr, height);
    }
    greatest = greater(greatest, height);
    if greatest > HIGHEST {
        return None;
    }
    Some(greatest as u16)
}

fn greater(one: u32, other: u32) -> u32
    ensures { result ≡ max one other }
{
    if one < other { other } else { one }
}

/// The height before the instruction behind this one.
fn height_before_next(instr: Instr, height: u32) -> u32
    requires { height ≤ most_height }
    ensures { result ≡ height_before_next instr height }
{
    if goes_on(instr) {
        height_after(instr, height)
    } else {
        0
    }
}
