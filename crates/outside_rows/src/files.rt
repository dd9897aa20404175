//! Files in memory, read whole.
ghost use Rattle.std.specs.Prelude.{◌≤◌};

use outside_io::{MOST_BYTES, MemFiles, ReadRefusal, SureFiles, read_whole};
use std::alloc::{AllocError, Global};
use std::process::Abort;
use std::test::Fail;

/// The length of a file, the limit, the calls that fail, and the length of what is read.
type Case<'a> = (usize, u64, &'a [u64], Result<usize, ReadRefusal>);

fn files(alloc: Global, fails: &[u64], name: &str, len: usize) -> Result<MemFiles, AllocError> {
    let mut files = MemFiles::new(alloc, Vec::from_slice(alloc, fails)?);
    files.add(String::from_str(alloc, name)?, vec![in alloc; 7u8; len]?)?;
    Ok(files)
}

/// How many bytes are read of a file of `len` bytes up to the limit.
fn bytes_read(
    alloc: Global,
    fails: &[u64],
    len: usize,
    limit: u64,
) -> Result<Result<usize, ReadRefusal>, AllocError>
    requires { limit ≤ MOST_BYTES }
{
    let mut files = files(alloc, fails, "t.csv", len)?;
    Ok(read_whole(alloc, &mut files, "t.csv", limit).map(|bytes| bytes.len()))
}

#[test]
fn reads_a_file_whole(rt: HostRuntime) -> Result<(), Fail> {
    let cases: [Case; 10] = [
        (0, 0, &[2], Ok(0)),
        (1, 0, &[2], Err(ReadRefusal::TooLong)),
        (65_536, 65_536, &[3], Ok(65_536)),
        (65_536, 65_536, &[2], Err(ReadRefusal::Failed)),
        (65_536, 65_535, &[2], Err(ReadRefusal::TooLong)),
        (65_537, 67_108_864, &[4], Ok(65_537)),
        (65_537, 67_108_864, &[3], Err(ReadRefusal::Failed)),
        (3, 2, &[1], Err(ReadRefusal::Failed)),
        (67_108_864, 67_108_864, &[], Ok(67_108_864)),
        (67_108_865, 67_108_864, &[], Err(ReadRefusal::TooLong)),
    ];
    for (len, limit, fails, want) in cases {
        let read = bytes_read(rt.alloc(), fails, len, limit)?;
        assert_eq!(rt; read, want, "{len} bytes up to {limit}");
    }
    Ok(())
}

#[test]
fn a_name_that_is_not_there_is_a_fault(rt: HostRuntime) -> Result<(), Fail> {
    let mut files = files(rt.alloc(), &[], "t.csv", 3)?;
    let read = read_whole(rt.alloc(), &mut files, "u.csv", 9).map(|bytes| bytes.len());
    assert_eq!(rt; read, Err(ReadRefusal::Failed));
    Ok(())
}

fn add(alloc: Global, files: &mut SureFiles, name: &str, bytes: &[u8]) -> Result<(), AllocError> {
    let name = String::from_str(alloc, name)?;
    files.add(name, Vec::from_slice(alloc, bytes)?)
}

/// Asserts what a file of at most three bytes holds.
fn expect_bytes(
    rt: &impl Abort,
    alloc: Global,
    files: &mut SureFiles,
    name: &str,
    want: &[u8],
) -> Result<(), ReadRefusal> {
    let read = read_whole(alloc, files, name, 3)?;
    assert_eq!(rt; read.as_slice(), want);
    Ok(())
}

#[test]
fn sure_files_hold_every_name(rt: HostRuntime) -> Result<(), Fail> {
    let alloc = rt.alloc();
    let mut files = SureFiles::new(alloc);
    add(alloc, &mut files, "s", b"ab")?;
    add(alloc, &mut files, "s", b"abc")?;
    expect_bytes(&rt, alloc, &mut files, "s", b"abc")?;
    expect_bytes(&rt, alloc, &mut files, "t", b"")?;
    Ok(())
}

#[test]
fn refusals_have_their_numbers(rt: HostRuntime) {
    let refusals = [
        ReadRefusal::Failed as u8,
        ReadRefusal::TooLong as u8,
        ReadRefusal::OutOfMemory as u8,
    ];
    assert_eq!(rt; refusals, [1, 2, 3]);
}
