//! Bodies.

ghost use Rattle.ns_image.specs.Reading as spec;
ghost use Rattle.ns_image.specs.Reads.{ReadsBytes, ReadsAs};

use crate::fault::Fault;
use crate::read::format::{Format, times, up_to};
use crate::read::input::Input;
use crate::read::instruction::Instruction;
use crate::read::place::places;
use crate::read::text::LocalName;
use ns_base::items::Items;
use ns_code::body::BodyCode;
use ns_code::instructions::Instructions;
use ns_code::kinds::{CLASS, CLAUSE};
use ns_code::local_names::LocalNames;
use std::alloc::Global;

/// How many instructions a body has at most.
const MOST_INSTRUCTIONS: u32 = 65_536;

/// A body of version 2, of code with so many files.
#[derive(Clone, Copy)]
pub struct Body {
    pub files: usize,
}

impl Format for Body {
    type Value = BodyCode;

    ghost reader = { λ b. spec.body b.files };

    #[tactic(auto, unfolding(crate::specs::Reading::body))]
    fn read(&self, alloc: Global, input: &mut Input<'_>) -> Result<BodyCode, Fault> {
        let mut body = head(alloc, input)?;
        match read_local_names(alloc, input, self.files, &mut body) {
            Ok(()) => Ok(body),
            Err(fault) => {
                drop(body);
                Err(fault)
            }
        }
    }
}

/// Reads the names of a body's locals, and the places that follow them, into the body.
#[tactic(auto, unfolding(crate::specs::Reading::with_local_names))]
fn read_local_names(
    alloc: Global,
    input: &mut Input<'_>,
    files: usize,
    body: &mut BodyCode,
) -> Result<(), Fault>
    ensures { ReadsAs (λ _. body.new) (spec.with_local_names files body.old input.old.rest.now) result input.new.rest.now }
{
    let names = times(alloc, input, &LocalName, u32::from(body.locals))?;
    body.local_names = LocalNames::given(names);
    read_places(alloc, input, files, body)
}

/// Reads the places into a body.
#[tactic(auto, unfolding(crate::specs::Reading::with_places))]
fn read_places(
    alloc: Global,
    input: &mut Input<'_>,
    files: usize,
    body: &mut BodyCode,
) -> Result<(), Fault>
    ensures { ReadsAs (λ _. body.new) (spec.with_places files body.old input.old.rest.now) result input.new.rest.now }
{
    body.places = places(alloc, input, files, &body.instrs)?;
    Ok(())
}

/// A body of version 1, whose locals get numbers for names.
pub struct OldBody;

impl Format for OldBody {
    type Value = BodyCode;

    ghost reader = { λ _. spec.old_body };

    #[tactic(auto, unfolding(crate::specs::Reading::old_body))]
    fn read(&self, alloc: Global, input: &mut Input<'_>) -> Result<BodyCode, Fault> {
        let mut body = head(alloc, input)?;
        body.local_names = LocalNames::numbered(body.locals);
        Ok(body)
    }
}

/// What both versions have of a body: all but the names of its locals and its places.
#[tactic(auto, unfolding(crate::specs::Reading::head))]
fn head(alloc: Global, input: &mut Input<'_>) -> Result<BodyCode, Fault>
    ensures { ReadsBytes (spec.head input.old.rest.now) result input.new.rest.now }
{
    let kind = input.byte_up_to(CLAUSE)?;
    let side = input.byte_up_to(CLASS)?;
    let class = input.word()?;
    let parent = input.reference()?;
    head_from_params(alloc, input, kind, side, class, parent)
}

/// What follows the parent.
#[tactic(auto, unfolding(crate::specs::Reading::head_from_params))]
fn head_from_params(
    alloc: Global,
    input: &mut Input<'_>,
    kind: u8,
    side: u8,
    class: u32,
    parent: Option<u32>,
) -> Result<BodyCode, Fault>
    ensures { ReadsBytes (spec.head_from_params kind side class parent input.old.rest.now) result input.new.rest.now }
{
    let params = input.byte()?;
    let locals = input.byte()?;
    let environment = input.flag()?;
    let height = input.half()?;
    let instrs = up_to(alloc, input, &Instruction, MOST_INSTRUCTIONS)?;
    let instrs = Instructions::of(alloc, instrs.as_slice())?;
    Ok(BodyCode {
        kind,
        side,
        class,
        parent,
        params,
        locals,
        environment,
        height,
        instrs,
        places: Items::from_vec(Vec::new(alloc)),
        local_names: LocalNames::numbered(0),
    })
}
