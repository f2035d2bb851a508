//! What the names of files and locals may look like.

ghost use Rattle.std.specs.Prelude.{◌≡◌};
ghost use Rattle.std.specs.Str.{is_utf8};
ghost use Rattle.ns_image.specs.Reading.{is_file_name, is_local_name};

use ns_base::spelled::{is_identifier, is_reserved};

/// Whether a file can have this name: UTF-8, and not empty.
pub fn is_file_name(name: &[u8]) -> bool
    ensures { result ≡ is_file_name name.now }
{
    !name.is_empty() && is_utf8(name)
}

fn is_utf8(bytes: &[u8]) -> bool
    ensures { result ≡ is_utf8 bytes.now }
{
    match str::from_utf8(bytes) {
        Ok(_) => true,
        Err(_) => false,
    }
}

/// Whether a local can have this name: an identifier that isn't reserved.
pub fn is_local_name(name: &[u8]) -> bool
    ensures { result ≡ is_local_name name.now }
{
    is_identifier(name) && !is_reserved(name)
}
