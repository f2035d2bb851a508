//! How many bytes may still be written.

ghost use Rattle.ns_snapshot_write.specs.Room.{Takes};

/// There would be more bytes than there may.
#[derive(Clone, Copy, PartialEq, Eq)]
pub struct TooLarge;

/// So many bytes may still be written. After a refusal it is of no use.
#[derive(Clone, Copy)]
pub struct Room {
    pub left: u64,
}

impl Room {
    /// Takes so many.
    pub fn take(&mut self, count: u64) -> Result<(), TooLarge>
        ensures { Takes count self.old.left result self.new.left }
    {
        if count > self.left {
            return Err(TooLarge);
        }
        self.left -= count;
        Ok(())
    }
}
