//! Output that is more than one piece.

use crate::command::Setting;
use crate::texts::{METHOD, within};
use ns_base::no_memory::NoMemory;
use std::alloc::Global;

#[test]
fn output_goes_out_in_pieces(rt: HostRuntime) {
    assert!(rt; written(rt.alloc(), &[]) == Ok((10_000, 0)));
    assert!(rt; written(rt.alloc(), &[(1, 100)]) == Ok((4_196, 5)));
}

/// How many bytes a program that prints a line of 9,999 bytes writes where these puts take only so many bytes, and its exit status.
fn written(alloc: Global, fail_at: &[(u64, u64)]) -> Result<(usize, u8), NoMemory> {
    let source = line(alloc)?;
    let mut setting = Setting::of(alloc, &[("T.ns", source.as_bytes())])?;
    setting.out.fail_at.extend_from_slice(fail_at)?;
    let exit = setting.run(alloc, "run T.ns")?;
    Ok((setting.out.bytes.len(), exit))
}

fn line(alloc: Global) -> Result<String, NoMemory> {
    let mut body = String::from_str(alloc, "p console printLine: '")?;
    for _ in 0..9_999 {
        body.push('a')?;
    }
    body.push('\'')?;
    within(alloc, METHOD, body.as_str())
}
