//! One row of values, with room for so many that using more of it takes no memory.

ghost use Rattle.std.specs.Prelude.{◌≡◌, ◌+◌, ◌-◌, ◌<◌, ◌≤◌, [], ◌++◌, length, take, drop, replicate, slice_set, vec_len, OnOk, OnErr};
ghost use Rattle.std.specs.List.{slice_index_or};
ghost use Rattle.std.specs.Vec.{vec_capacity};
ghost use Rattle.ns_world.specs.declared.value.Value.TheVariants.{Nil};

use ns_base::no_memory::NoMemory;
use ns_world::value::Value;
use std::alloc::Global;
use std::marker::Model;

/// The most values for which there can be room: each has its number in 32 bits.
const MOST: u64 = 4_294_967_295;

/// A row of values. It is filled from below, up to the highest place that was ever needed, and stays filled.
#[derive(Drop)]
pub struct Values {
    items: Vec<Value>,
    room: u64,
}

impl Model for Values {
    ghost use Rattle.std.specs.Vec.{vec_capacity};
    ghost use Rattle.ns_machine_frames.specs.Row.{ValueRow, HasRoom};

    ghost Value = { ValueRow };

    ghost view = { λ v. record { items = v.items.items; room = v.room } };

    ghost invariant = { λ v. HasRoom v.items.items (vec_capacity v.items) v.room };
}

impl Values {
    /// A row without values and without room.
    pub fn new(alloc: Global) -> Values
        ensures { result ≡ record { items = []; room = 0 } }
    {
        Values {
            items: Vec::new(alloc),
            room: 0,
        }
    }

    /// Takes room for so many values; more than 32 bits can number are refused like memory that is wanting. After a
    /// refusal nothing has changed.
    pub fn reserve(&mut self, room: u64) -> Result<(), NoMemory>
        ensures items { self.new.items ≡ self.old.items }
        ensures ok { OnOk result (room ≤ self.new.room) }
        ensures never_less { self.old.room ≤ self.new.room }
        ensures small { self.new.room ≤ 4294967295 }
        ensures err { OnErr result (self.new ≡ self.old) }
    {
        if room <= self.room {
            return Ok(());
        }
        if MOST < room {
            return Err(NoMemory);
        }
        let more = (room as usize).saturating_sub(self.items.len());
        self.items.reserve_exact(more)?;
        self.room = room;
        Ok(())
    }

    /// How many values there are. They are within the room, all of which 32 bits can number.
    pub fn count(&self) -> u32
        ensures count { result ≡ length self.now.items }
        ensures within { length self.now.items ≤ self.now.room }
        ensures small { self.now.room ≤ 4294967295 }
    {
        self.items.len() as u32
    }

    /// The value at a place.
    #[inline(always)]
    pub fn get(&self, at: u32) -> Value
        requires { at < length self.now.items }
        ensures { result ≡ slice_index_or self.now.items at Nil }
    {
        self.items[at as usize]
    }

    /// The values from a place to another.
    #[inline(always)]
    pub fn between(&self, from: u32, to: u32) -> &[Value]
        requires order { from ≤ to }
        requires filled { to ≤ length self.now.items }
        ensures { result.now ≡ drop from (take to self.now.items) }
    {
        let (used, _) = self.items.split_at(to as usize);
        let (_, values) = used.split_at(from as usize);
        values
    }

    /// Writes a value at a place.
    #[inline(always)]
    pub fn set(&mut self, at: u32, value: Value)
        requires { at < length self.old.items }
        ensures { self.new ≡ record self.old { items = slice_set self.old.items at value } }
    {
        self.items[at as usize] = value;
    }

    /// Fills the row with nils up to a place, where it isn't yet.
    #[inline(always)]
    pub fn fill_to(&mut self, end: u32)
        requires { end ≤ self.old.room }
        ensures items { self.new.items ≡ self.old.items ++ replicate (end - length self.old.items) Nil }
        ensures room { self.new.room ≡ self.old.room }
    {
        if self.items.len() < end as usize {
            self.fill_more(end);
        }
    }

    /// Fills the row with nils up to a place.
    fn fill_more(&mut self, end: u32)
        requires room { end ≤ self.old.room }
        requires more { length self.old.items < end }
        ensures items { self.new.items ≡ self.old.items ++ replicate (end - length self.old.items) Nil }
        ensures room { self.new.room ≡ self.old.room }
    {
        let count = end as usize - self.items.len();
        repeat(&mut self.items, count);
    }

    /// Writes values from a place on.
    #[inline(always)]
    pub fn set_all(&mut self, from: u32, values: &[Value])
        requires { from + length values.now ≤ length self.old.items }
        ensures items { take (from + length values.now) self.new.items ≡ take from self.old.items ++ values.now }
        ensures length { length self.new.items ≡ length self.old.items }
        ensures room { self.new.room ≡ self.old.room }
    {
        copy(&mut self.items, from as usize, values);
    }

    /// Makes so many values from a place on nil.
    #[inline(always)]
    pub fn set_nils(&mut self, from: u32, count: u32)
        requires { from + count ≤ length self.old.items }
        ensures items { take (from + count) self.new.items ≡ take from self.old.items ++ replicate count Nil }
        ensures length { length self.new.items ≡ length self.old.items }
        ensures room { self.new.room ≡ self.old.room }
    {
        clear(&mut self.items, from as usize, count as usize);
    }
}

/// Puts so many nils behind the others.
fn repeat(items: &mut Vec<Value>, count: usize)
    requires { vec_len items.old + count ≤ vec_capacity items.old }
    ensures items { items.new.items ≡ items.old.items ++ replicate count Nil }
    ensures capacity { vec_capacity items.old ≤ vec_capacity items.new }
{
    'filling: for _ in 0..count {
        items.push_reserved(Value::Nil);
    }
}

/// Makes so many values from a place on nil.
#[inline(always)]
fn clear(items: &mut [Value], from: usize, count: usize)
    requires { from + count ≤ length items.old }
    ensures { take (from + count) items.new ≡ take from items.old ++ replicate count Nil }
{
    'clearing: for done in 0..count {
        items[from + done] = Value::Nil;
    }
}

/// Writes values from a place on.
fn copy(items: &mut [Value], from: usize, values: &[Value])
    requires { from + length values.now ≤ length items.old }
    ensures { take (from + length values.now) items.new ≡ take from items.old ++ values.now }
{
    'copying: for done in 0..values.len() {
        items[from + done] = values[done];
    }
}
