//! The edge: the files of the file system, and sinks over writers, of which standard output is one.
//! No clause speaks of what a real file holds or of what leaves through standard output.
ghost use Rattle.std.specs.Prelude.{◌≡◌, [], length, IfOk, ◌≤◌};

use super::faults::note_fault;
use super::reading::{Files, PieceRefusal};
use super::writing::{Failed, Sink};
use std::alloc::Global;
use std::io::{Read, Seek, SeekFrom, Write};
use std::{fs, io, rt};

/// The files of the file system. Contracts know nothing of what they hold.
///
/// A file is opened for a piece from its start, and for a piece of another name than the last. It
/// stays open for the pieces of that name that follow. So a file that is replaced while it is read
/// is read as the old one or the new one. A file that is overwritten in place may still be read as
/// a mix of both.
///
/// An error of the file system is [`PieceRefusal::Failed`]. It closes the file, so the next piece
/// opens it anew.
#[derive(Drop)]
pub struct DirFiles<R: rt::Files> {
    rt: R,
    alloc: Global,
    open: Option<OpenFile<R::File>>,
    failed: Vec<String>,
}

// A file that is open, and the name that it was opened by.
#[derive(Drop)]
struct OpenFile<T> {
    name: String,
    file: T,
}

impl<R: rt::Files> DirFiles<R> {
    ghost use Rattle.outside_io.specs.Adapters.{failed_names};

    /// Files of which none is open and none has failed.
    pub fn new(rt: R, alloc: Global) -> DirFiles<R>
        ensures { failed_names result ≡ [] }
    {
        DirFiles {
            rt,
            alloc,
            open: None,
            failed: Vec::new(alloc),
        }
    }
}

impl<R: rt::Files> Files for DirFiles<R> {
    ghost use Rattle.outside_io.specs.Adapters.{failed_names};

    ghost failed = { failed_names };

    fn read_piece(&mut self, name: &str, at: u64, buf: &mut [u8]) -> Result<usize, PieceRefusal> {
        match read_at(&self.rt, self.alloc, &mut self.open, name, at, buf) {
            Ok(count) => Ok(count),
            Err(PieceRefusal::Failed) => Err(note_fault(self.alloc, &mut self.failed, name)),
            Err(PieceRefusal::OutOfMemory) => Err(PieceRefusal::OutOfMemory),
        }
    }
}

// One read of the named file, from `at` on. The file stays open unless the call fails.
fn read_at<R: rt::Files>(
    rt: &R,
    alloc: Global,
    kept: &mut Option<OpenFile<R::File>>,
    name: &str,
    at: u64,
    buf: &mut [u8],
) -> Result<usize, PieceRefusal>
    ensures { IfOk result (λ count. count ≤ length buf.new) }
{
    let mut open = match kept.take() {
        Some(open) if at > 0 && open.name.as_str() == name => open,
        _ => open_file(rt, alloc, name)?,
    };
    let count = read_from(&mut open.file, at, buf).map_err(|_| PieceRefusal::Failed)?;
    *kept = Some(open);
    Ok(count)
}

fn open_file<R: rt::Files>(
    rt: &R,
    alloc: Global,
    name: &str,
) -> Result<OpenFile<R::File>, PieceRefusal> {
    let kept_name = String::from_str(alloc, name).map_err(|_| PieceRefusal::OutOfMemory)?;
    let file = fs::open(rt, name).map_err(|_| PieceRefusal::Failed)?;
    Ok(OpenFile {
        name: kept_name,
        file,
    })
}

fn read_from<T: Read + Seek>(file: &mut T, at: u64, buf: &mut [u8]) -> io::Result<usize>
    ensures { IfOk result (λ count. count ≤ length buf.new) }
{
    file.seek(SeekFrom::Start(at))?;
    file.read(buf)
}

/// A sink over a writer. Contracts know what was written if the writer exposes it.
///
/// An error of the writer is a fault, and so is a write that takes nothing of a piece with bytes.
#[derive(Drop)]
pub struct WriterSink<W> {
    writer: W,
    faults: u64,
}

impl<W: Write> WriterSink<W> {
    ghost use Rattle.outside_io.specs.Adapters.{faults_of, writer_of};

    /// A sink that has met no fault.
    pub fn over(writer: W) -> WriterSink<W>
        ensures faults { faults_of result ≡ 0 }
        ensures writer { writer_of result ≡ writer }
    {
        WriterSink { writer, faults: 0 }
    }
}

impl<W: Write> Sink for WriterSink<W> {
    ghost use Rattle.outside_io.specs.Adapters.{faults_of, writer_of};

    ghost written = { λ sink. W.contents (writer_of sink) };

    ghost faults = { faults_of };

    fn write_piece(&mut self, bytes: &[u8]) -> Result<usize, Failed> {
        match self.writer.write(bytes) {
            Ok(count) if count > 0 || bytes.is_empty() => Ok(count),
            _ => {
                self.faults = self.faults.saturating_add(1);
                Err(Failed)
            }
        }
    }
}

/// Standard output. Contracts don't know what was written to it.
pub type StdSink<R> = WriterSink<StdWriter<R>>;

impl<R: Print> WriterSink<StdWriter<R>> {
    ghost use Rattle.outside_io.specs.Adapters.{faults_of};

    /// A sink that has met no fault.
    pub fn new(rt: R) -> StdSink<R>
        ensures { faults_of result ≡ 0 }
    {
        WriterSink::over(StdWriter { rt })
    }
}

/// Standard output as a writer. Each write is one system call.
#[derive(Drop)]
pub struct StdWriter<R> {
    rt: R,
}

impl<R: Print> Write for StdWriter<R> {
    fn write(&mut self, bytes: &[u8]) -> io::Result<usize> {
        self.rt.write_some(bytes)
    }

    fn flush(&mut self) -> io::Result<()> {
        Ok(())
    }
}
