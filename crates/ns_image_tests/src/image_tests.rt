//! An image of both versions: what is read of it, what is listed, what is refused and what is admitted.

ghost use Rattle.ns_code.specs.Fits.{Fits};

use ns_base::no_memory::NoMemory;
use ns_code::program::CodeProgram;
use ns_image::fault::ImageFault;
use ns_image::read::read;
use ns_image_list::list::list;
use ns_image_write::write::write;
use ns_verify::fault::VerifyCause::{BadHeight, BadScope};
use ns_verify::fault::{VerifyFault, Where};
use ns_verify::verify::verify;
use std::alloc::Global;

/// The class `A`, whose `main:args:` answers 7: its file `A.ns`, its names, a class record with one
/// method, an initialiser with a place, and the method.
const IMAGE: [u8; 209] = [
    78, 83, 80, 75, 0, 2, 0, 0, 0, 1, 0, 0, 0, 4, 65, 46, 110, 115, 0, 0, 0, 4, 0, 0, 0, 1, 65, 0,
    0, 0, 13, 112, 97, 99, 107, 97, 103, 101, 85, 115, 105, 110, 103, 58, 0, 0, 0, 3, 110, 101,
    119, 0, 0, 0, 10, 109, 97, 105, 110, 58, 97, 114, 103, 115, 58, 0, 0, 0, 0, 0, 0, 0, 1, 0, 0,
    0, 0, 0, 0, 0, 0, 0, 0, 0, 1, 1, 0, 0, 0, 0, 0, 0, 0, 0, 0, 0, 0, 2, 0, 0, 0, 0, 0, 1, 0, 0, 0,
    3, 0, 0, 0, 0, 1, 0, 0, 0, 0, 0, 2, 2, 0, 0, 0, 0, 0, 0, 0, 0, 0, 1, 1, 0, 0, 0, 0, 0, 0, 2,
    19, 0, 22, 0, 0, 0, 1, 109, 0, 0, 0, 1, 0, 0, 0, 0, 0, 0, 0, 0, 0, 0, 0, 1, 0, 0, 0, 7, 0, 0,
    0, 0, 0, 0, 0, 0, 0, 0, 2, 2, 0, 0, 1, 0, 0, 0, 2, 4, 0, 0, 0, 0, 0, 0, 0, 7, 21, 0, 0, 0, 1,
    112, 0, 0, 0, 1, 97, 0, 0, 0, 0,
];

/// The same class in version 1.
const OLD_IMAGE: [u8; 158] = [
    78, 83, 80, 75, 0, 1, 0, 0, 0, 4, 0, 0, 0, 1, 65, 0, 0, 0, 13, 112, 97, 99, 107, 97, 103, 101,
    85, 115, 105, 110, 103, 58, 0, 0, 0, 3, 110, 101, 119, 0, 0, 0, 10, 109, 97, 105, 110, 58, 97,
    114, 103, 115, 58, 0, 0, 0, 0, 0, 0, 0, 1, 0, 0, 0, 0, 0, 0, 0, 0, 0, 0, 0, 1, 1, 0, 0, 0, 0,
    0, 0, 0, 0, 0, 0, 0, 2, 0, 0, 0, 0, 0, 1, 0, 0, 0, 3, 0, 0, 0, 0, 1, 0, 0, 0, 0, 0, 2, 2, 0, 0,
    0, 0, 0, 0, 0, 0, 0, 1, 1, 0, 0, 0, 0, 0, 0, 2, 19, 0, 22, 0, 0, 0, 0, 0, 0, 0, 0, 0, 0, 2, 2,
    0, 0, 1, 0, 0, 0, 2, 4, 0, 0, 0, 0, 0, 0, 0, 7, 21,
];

const LISTING: &[u8] = b"class 0 A
body 0 init class 0 params 1 locals 1
  local 0 m
  0 InitSuper 0
  1 ReturnSelf
body 1 method class 0 params 2 locals 2
  local 0 p
  local 1 a
  0 PushInt 7
  1 Return
";

const OLD_LISTING: &[u8] = b"class 0 A
body 0 init class 0 params 1 locals 1
  local 0 t0
  0 InitSuper 0
  1 ReturnSelf
body 1 method class 0 params 2 locals 2
  local 0 t0
  local 1 t1
  0 PushInt 7
  1 Return
";

#[test]
fn both_versions_are_read_and_listed(rt: HostRuntime) {
    assert!(rt; is_listed(rt.alloc(), &IMAGE, LISTING));
    assert!(rt; is_listed(rt.alloc(), &OLD_IMAGE, OLD_LISTING));
}

fn is_listed(alloc: Global, image: &[u8], lines: &[u8]) -> bool {
    let Ok(code) = read(alloc, image) else {
        return false;
    };
    match list(alloc, &code) {
        Ok(listing) => listing.as_slice() == lines,
        Err(_) => false,
    }
}

#[test]
fn a_cut_image_is_truncated(rt: HostRuntime) {
    assert!(rt; are_truncated(rt.alloc()));
}

fn are_truncated(alloc: Global) -> bool {
    'lengths: for length in 0..IMAGE.len() {
        let fault = if length < 4 {
            ImageFault::NotAnImage
        } else {
            ImageFault::Truncated
        };
        if read(alloc, &IMAGE[..length]).err() != Some(fault) {
            return false;
        }
    }
    true
}

/// The image with other bytes from a place on.
fn changed(alloc: Global, at: usize, bytes: &[u8]) -> Result<Vec<u8>, NoMemory> {
    let mut image = Vec::new(alloc);
    for (place, byte) in IMAGE.iter().enumerate() {
        let other = if place >= at {
            bytes.get(place - at)
        } else {
            None
        };
        image.push(*other.unwrap_or(byte))?;
    }
    Ok(image)
}

/// A place, the bytes that stand there, and what is wrong then.
type Row = (usize, &'static [u8], Option<ImageFault>);

const CHANGES: &[Row] = &[
    (0, b"n", Some(ImageFault::NotAnImage)),
    (5, &[0], Some(ImageFault::BadVersion)),
    (5, &[3], Some(ImageFault::BadVersion)),
    // Counts, and lengths that pass the end.
    (9, &[18], Some(ImageFault::BadField(6))),
    (10, &[255], Some(ImageFault::Truncated)),
    (19, &[1, 0, 0], Some(ImageFault::BadField(65))),
    (19, &[1, 0, 1], Some(ImageFault::BadField(18))),
    (71, &[16, 1], Some(ImageFault::BadField(69))),
    (115, &[1], Some(ImageFault::BadField(115))),
    (135, &[1, 0, 1], Some(ImageFault::BadField(134))),
    // Names.
    (14, &[255], Some(ImageFault::BadField(10))),
    (26, b"1", Some(ImageFault::BadField(22))),
    (26, b"_", None),
    (26, b"+", None),
    (43, b";", Some(ImageFault::BadField(27))),
    (48, b"a:b", Some(ImageFault::BadField(44))),
    (48, b"<=!", None),
    (145, b"+", Some(ImageFault::BadField(141))),
    // Small numbers.
    (108, &[2], None),
    (108, &[3], Some(ImageFault::BadField(108))),
    (119, &[4], Some(ImageFault::BadField(119))),
    (120, &[2], Some(ImageFault::BadField(120))),
    (131, &[2], Some(ImageFault::BadField(131))),
    (138, &[0], Some(ImageFault::BadField(138))),
    (194, &[27], Some(ImageFault::BadField(194))),
    // A place: its instruction, its file, its line and its column.
    (153, &[1], Some(ImageFault::BadField(150))),
    (153, &[2], Some(ImageFault::BadField(150))),
    (157, &[1], Some(ImageFault::BadField(154))),
    (161, &[0], Some(ImageFault::BadField(158))),
    (165, &[0], Some(ImageFault::BadField(162))),
];

#[test]
fn the_first_bad_field_is_named(rt: HostRuntime) {
    assert!(rt; are_refused(rt.alloc()));
}

fn are_refused(alloc: Global) -> bool {
    'rows: for (at, bytes, fault) in CHANGES {
        let Ok(image) = changed(alloc, *at, bytes) else {
            return false;
        };
        if read(alloc, &image).err() != *fault {
            return false;
        }
    }
    true
}

#[test]
fn bytes_behind_an_image_are_refused(rt: HostRuntime) {
    assert!(rt; is_trailing(rt.alloc()));
}

fn is_trailing(alloc: Global) -> bool {
    let Ok(mut image) = Vec::from_slice(alloc, &IMAGE) else {
        return false;
    };
    image.push(0).is_ok() && read(alloc, &image).err() == Some(ImageFault::Trailing)
}

/// A place, the bytes that stand there, and the first fault of the code that is read then: a height of
/// 1,024, a return of self above a value, and one from the home of a method.
const VERIFIED: &[(usize, &[u8], Option<VerifyFault>)] = &[
    (0, b"", None),
    (
        179,
        &[4, 0],
        Some(VerifyFault::At {
            cause: BadScope,
            at: Where::Body(1, 0),
        }),
    ),
    (
        194,
        &[22],
        Some(VerifyFault::At {
            cause: BadHeight,
            at: Where::Body(1, 1),
        }),
    ),
    (
        194,
        &[23],
        Some(VerifyFault::At {
            cause: BadScope,
            at: Where::Body(1, 1),
        }),
    ),
];

/// What is admitted is written again as it was read.
#[test]
fn sound_images_are_admitted_as_they_are(rt: HostRuntime) {
    assert!(rt; are_verified(rt.alloc()));
}

fn are_verified(alloc: Global) -> bool {
    'rows: for (at, bytes, wanted) in VERIFIED {
        let Ok(image) = changed(alloc, *at, bytes) else {
            return false;
        };
        let Ok(code) = read(alloc, &image) else {
            return false;
        };
        if !is_verified(alloc, code, &image, *wanted) {
            return false;
        }
    }
    true
}

fn is_verified(alloc: Global, code: CodeProgram, image: &[u8], wanted: Option<VerifyFault>) -> bool
    requires { Fits code }
{
    match verify(alloc, code) {
        Ok(verified) => wanted.is_none() && is_written(alloc, verified.code(), image),
        Err(fault) => wanted == Some(fault),
    }
}

fn is_written(alloc: Global, code: &CodeProgram, image: &[u8]) -> bool
    requires { Fits code.now }
{
    match write(alloc, code) {
        Ok(bytes) => bytes.as_slice() == image,
        Err(_) => false,
    }
}
