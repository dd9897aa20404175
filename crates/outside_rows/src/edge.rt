//! Files of the file system.

use outside_io::{DirFiles, Files, ReadRefusal, WriterSink, read_whole, write_all};
use std::alloc::Global;
use std::process::Abort;
use std::rt::Env;
use std::test::Fail;
use std::{env, fs, io, process};

// A name in the folder for temporary files. No other test and no other process uses it.
fn temp_name<R: Env + AllocGlobal>(rt: &R, process: u32, test: &str) -> io::Result<String> {
    Ok(format!(in rt.alloc();
        "{}/outside_io_{process}_{test}",
        env::temp_dir(rt)?.display()
    )?)
}

#[test]
fn reads_real_files(rt: HostRuntime) -> Result<(), Fail> {
    let alloc = rt.alloc();
    let name = temp_name(&rt, process::id(rt.process()), "read")?;
    fs::write(&rt, name.as_str(), b"k,v\n")?;
    let mut files = DirFiles::new(rt, alloc);
    let read = read_whole(alloc, &mut files, name.as_str(), 4)?;
    fs::remove_file(&rt, name.as_str())?;
    assert_eq!(rt; read.as_slice(), b"k,v\n".as_slice());
    let again = read_whole(alloc, &mut files, name.as_str(), 4).map(|bytes| bytes.len());
    assert_eq!(rt; again, Err(ReadRefusal::Failed));
    Ok(())
}

/// Asserts the next four bytes of a file.
fn expect_piece<F: Files>(rt: &impl Abort, files: &mut F, name: &str, at: u64, want: [u8; 4]) {
    let mut piece = [0u8; 4];
    assert_eq!(rt; files.read_piece(name, at, &mut piece), Ok(4));
    assert_eq!(rt; piece, want);
}

/// Asserts the bytes of a file of at most eight bytes.
fn expect_whole<F: Files>(
    rt: &impl Abort,
    alloc: Global,
    files: &mut F,
    name: &str,
    want: &[u8],
) -> Result<(), ReadRefusal> {
    let read = read_whole(alloc, files, name, 8)?;
    assert_eq!(rt; read.as_slice(), want);
    Ok(())
}

#[test]
fn a_file_that_is_replaced_is_read_as_one(rt: HostRuntime) -> Result<(), Fail> {
    let alloc = rt.alloc();
    let name = temp_name(&rt, process::id(rt.process()), "name")?;
    let next = temp_name(&rt, process::id(rt.process()), "next")?;
    fs::write(&rt, name.as_str(), b"old bytes")?;
    fs::write(&rt, next.as_str(), b"new text")?;
    let mut files = DirFiles::new(rt, alloc);
    expect_piece(&rt, &mut files, name.as_str(), 0, *b"old ");
    fs::rename(&rt, next.as_str(), name.as_str())?;
    expect_piece(&rt, &mut files, name.as_str(), 4, *b"byte");
    // From its start it is opened again.
    expect_whole(&rt, alloc, &mut files, name.as_str(), b"new text")?;
    fs::remove_file(&rt, name.as_str())?;
    Ok(())
}

#[test]
fn writes_to_a_real_file(rt: HostRuntime) -> Result<(), Fail> {
    let name = temp_name(&rt, process::id(rt.process()), "write")?;
    let mut sink = WriterSink::over(fs::create(&rt, name.as_str())?);
    let wrote = write_all(&mut sink, b"query 0");
    let read = fs::read(&rt, name.as_str())?;
    fs::remove_file(&rt, name.as_str())?;
    assert_eq!(rt; wrote, Ok(()));
    assert_eq!(rt; read.as_slice(), b"query 0".as_slice());
    Ok(())
}
