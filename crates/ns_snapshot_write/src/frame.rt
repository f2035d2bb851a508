//! Frames.

ghost use Rattle.std.specs.Prelude.{◌≡◌, ◌+◌, ◌++◌, ◌∷◌, [], OnOk, length};
ghost use Rattle.std.specs.List.{concat};
ghost use Rattle.ns_frozen.specs.declared.frame.FrameKind.TheVariants.{Kernel};
ghost use Rattle.ns_image.specs.Bytes as image;
ghost use Rattle.ns_snapshot.specs.Bytes as spec;
ghost use Rattle.ns_snapshot_write.specs.Room.{FrameHasRoom, Takes};
ghost use Rattle.ns_snapshot_write.specs.Segments as segments;

use crate::output::{put_double, with_byte, with_word};
use crate::part::{Part, measure_counted, put_counted};
use crate::room::{Room, TooLarge};
use crate::variant::method_number;
use ns_base::no_memory::NoMemory;
use ns_frozen::frame::{FrameKind, FrozenFrame};
use ns_image_write::write::output::{put_long, put_word};
use ns_kcode::state::KState;
use ns_world::kernel_parts::KMethod;

/// The state of a method of the kernel.
impl Part for KState {
    ghost layout = { spec.state };

    ghost has_room = { λ _. Unit {0} };

    fn measure(&self, room: &mut Room) -> Result<(), TooLarge> {
        self.receiver.measure(room)?;
        self.first.measure(room)?;
        self.second.measure(room)?;
        room.take(16)?;
        self.last.measure(room)
    }

    fn put(&self, out: &mut Vec<u8>) -> Result<(), NoMemory> {
        put_message(out, self)?;
        put_turns(out, self)
    }
}

/// Its receiver and its arguments.
fn put_message(out: &mut Vec<u8>, state: &KState) -> Result<(), NoMemory>
    ensures { OnOk result (out.new.items ≡ out.old.items ++ segments.message state.now) }
{
    state.receiver.put(out)?;
    state.first.put(out)?;
    state.second.put(out)
}

/// What follows them.
fn put_turns(out: &mut Vec<u8>, state: &KState) -> Result<(), NoMemory>
    ensures { OnOk result (out.new.items ≡ out.old.items ++ segments.turns state.now) }
{
    put_size(out, state)?;
    put_count(out, state)?;
    state.last.put(out)
}

fn put_size(out: &mut Vec<u8>, state: &KState) -> Result<(), NoMemory>
    ensures { OnOk result (out.new.items ≡ out.old.items ++ image.long state.now.size) }
{
    put_long(out, state.size)
}

fn put_count(out: &mut Vec<u8>, state: &KState) -> Result<(), NoMemory>
    ensures { OnOk result (out.new.items ≡ out.old.items ++ image.long state.now.count) }
{
    put_long(out, state.count)
}

/// Its number, and what it holds.
impl Part for FrameKind {
    ghost layout = { spec.frame_kind };

    ghost has_room = { λ _. Unit {0} };

    fn measure(&self, room: &mut Room) -> Result<(), TooLarge> {
        match self {
            FrameKind::Method(_) => room.take(5),
            FrameKind::Block(_) => room.take(5),
            FrameKind::Initialiser(_) => room.take(5),
            FrameKind::Clause {
                body: _,
                object: _,
                holder: _,
                class: _,
            } => room.take(17),
            FrameKind::Kernel { method: _, state } => measure_kernel(room, state),
        }
    }

    fn put(&self, out: &mut Vec<u8>) -> Result<(), NoMemory> {
        match self {
            FrameKind::Method(body) => with_word(out, 0, *body),
            FrameKind::Block(body) => with_word(out, 1, *body),
            FrameKind::Initialiser(body) => with_word(out, 2, *body),
            FrameKind::Clause {
                body,
                object,
                holder,
                class,
            } => put_clause(out, *body, *object, *holder, *class),
            FrameKind::Kernel { method, state } => put_kernel(out, *method, state),
        }
    }
}

fn measure_kernel(room: &mut Room, state: &KState) -> Result<(), TooLarge>
    ensures { Takes (2 + length (spec.state state.now)) room.old.left result room.new.left }
{
    room.take(2)?;
    state.measure(room)
}

fn put_clause(
    out: &mut Vec<u8>,
    body: u32,
    object: u32,
    holder: u32,
    class: u32,
) -> Result<(), NoMemory>
    ensures { OnOk result (out.new.items ≡ out.old.items
        ++ concat (image.byte 3 ∷ image.word body ∷ image.word object ∷ image.word holder ∷ image.word class ∷ [])) }
{
    with_word(out, 3, body)?;
    put_word(out, object)?;
    put_word(out, holder)?;
    put_word(out, class)
}

fn put_kernel(out: &mut Vec<u8>, method: KMethod, state: &KState) -> Result<(), NoMemory>
    ensures { OnOk result (out.new.items ≡ out.old.items ++ spec.frame_kind (Kernel method state.now)) }
{
    with_byte(out, 4, method_number(method))?;
    state.put(out)
}

impl Part for FrozenFrame {
    ghost layout = { spec.frame };

    ghost has_room = { FrameHasRoom };

    fn measure(&self, room: &mut Room) -> Result<(), TooLarge> {
        self.kind.measure(room)?;
        room.take(16)?;
        self.receiver.measure(room)?;
        self.env.measure(room)?;
        measure_counted(room, self.locals.as_slice())?;
        measure_counted(room, self.operands.as_slice())?;
        self.site.measure(room)
    }

    fn put(&self, out: &mut Vec<u8>) -> Result<(), NoMemory> {
        put_head(out, self)?;
        put_lists(out, self)
    }
}

/// What stands before the locals.
fn put_head(out: &mut Vec<u8>, frame: &FrozenFrame) -> Result<(), NoMemory>
    ensures { OnOk result (out.new.items ≡ out.old.items ++ segments.head frame.now) }
{
    put_running(out, frame)?;
    put_home(out, frame)
}

/// What it runs, the number of the instruction, and the receiver.
fn put_running(out: &mut Vec<u8>, frame: &FrozenFrame) -> Result<(), NoMemory>
    ensures { OnOk result (out.new.items ≡ out.old.items ++ segments.running frame.now) }
{
    frame.kind.put(out)?;
    put_word(out, frame.instr)?;
    frame.receiver.put(out)
}

/// Its holder, its home and its environment.
fn put_home(out: &mut Vec<u8>, frame: &FrozenFrame) -> Result<(), NoMemory>
    ensures { OnOk result (out.new.items ≡ out.old.items ++ segments.home frame.now) }
{
    put_word(out, frame.holder)?;
    put_double(out, frame.home)?;
    frame.env.put(out)
}

/// Its locals, its operands and its site.
fn put_lists(out: &mut Vec<u8>, frame: &FrozenFrame) -> Result<(), NoMemory>
    requires { FrameHasRoom frame.now }
    ensures { OnOk result (out.new.items ≡ out.old.items ++ segments.lists frame.now) }
{
    put_counted(out, frame.locals.as_slice())?;
    put_counted(out, frame.operands.as_slice())?;
    frame.site.put(out)
}
