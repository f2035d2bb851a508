//! What a host is given.

ghost use Rattle.std.specs.Prelude.{◌≡◌, length};
ghost use Rattle.ns_reply.specs.Room.{given as given_lem};

/// Puts the first of the bytes into the room, as many as there is room for, and answers how many bytes there are.
pub fn give(bytes: &[u8], room: &mut [u8]) -> u64
    ensures room { room.new ≡ given_lem bytes.now room.old }
    ensures length { result ≡ length bytes.now }
{
    let n = bytes.len().min(room.len());
    room[..n].copy_from_slice(&bytes[..n]);
    bytes.len() as u64
}
