//! Integers in decimal, without taking memory.

ghost use Rattle.std.specs.Prelude.{◌≡◌, ◌+◌, ◌≤◌, length, drop};
ghost use Rattle.std.specs.Fmt.{decimal, signed_decimal};

/// The text of an Integer, which has at most a sign and 19 digits, written at the end of that room.
pub fn decimal_text(number: i64, room: &mut [u8; 20]) -> &[u8]
    ensures { result.now ≡ signed_decimal number }
{
    let start = write_signed(number, room);
    &room[start..]
}

/// Writes the text at the end, and gives its start.
fn write_signed(number: i64, bytes: &mut [u8; 20]) -> usize
    ensures within { result ≤ 20 }
    ensures written { drop result bytes.new ≡ signed_decimal number }
{
    let start = write_digits(number.unsigned_abs(), bytes);
    if number >= 0 {
        return start;
    }
    bytes[start - 1] = b'-';
    start - 1
}

/// Writes the digits at the end, from the last to the first, and gives their start.
fn write_digits(number: u64, bytes: &mut [u8; 20]) -> usize
    ensures start { result + length (decimal number) ≡ 20 }
    ensures written { drop result bytes.new ≡ decimal number }
{
    let mut left = number;
    let mut at: usize = 20;
    'digits: while left >= 10 {
        at -= 1;
        bytes[at] = b'0' + (left % 10) as u8;
        left /= 10;
    }
    at -= 1;
    bytes[at] = b'0' + left as u8;
    at
}
