//! The sources of a real run: a file, and standard input. Neither tells what is left in it.

ghost use Rattle.std.specs.Prelude.{◌≡◌, None};
ghost use Rattle.std.specs.Io.{ReadsAtMost};

use crate::reading::Reading;
use rv_base::{ReadAnswer, Source};
use std::alloc::Global;
use std::fs::File;
use std::io;
use std::io::{BufReader, Read, Stdin};

// How many bytes of standard input one call of the system may give.
const STDIN_PIECE: usize = 65_536;

/// A file, which is opened at the first read. Where it can't be opened, that read fails.
#[derive(Drop)]
pub struct FileSource<'a> {
    rt: &'a HostRuntime,
    path: &'a str,
    file: Option<File>,
    reading: Reading,
}

impl<'a> FileSource<'a> {
    /// The file of this path. It is not opened yet, and may be missing.
    pub fn new(rt: &'a HostRuntime, path: &'a str) -> FileSource<'a> {
        FileSource {
            rt,
            path,
            file: None,
            reading: Reading::new(),
        }
    }

    // Opens the file where that is still to do, and reads.
    fn read_some(&mut self, into: &mut [u8]) -> io::Result<usize>
        ensures bound { ReadsAtMost result into.new }
        ensures reading { self.new.reading ≡ self.old.reading }
    {
        let mut file = match self.file.take() {
            Some(file) => file,
            None => opened(self.rt, self.path)?,
        };
        let count = file.read(into);
        self.file = Some(file);
        count
    }
}

// Opens the file. Where standard input or output is closed, the system gives the file that number,
// and whoever reads or writes there would meet the file. A clone has a number above 2, and only the
// clone stays open.
fn opened(rt: &HostRuntime, path: &str) -> io::Result<File> {
    File::open(rt, path)?.try_clone()
}

impl<'a> Source for FileSource<'a> {
    ghost left = { λ _. None };

    ghost faults = { λ source. source.reading.errors.faults };

    ghost wants = { λ source. source.reading.errors.wants };

    ghost ended = { λ source. source.reading.ended };

    fn read(&mut self, into: &mut [u8]) -> ReadAnswer {
        let outcome = self.read_some(into);
        self.reading.answer(outcome)
    }
}

/// Standard input. What one call of the system gave is handed out before the next one, so no read
/// waits while there is something to hand out.
#[derive(Drop)]
pub struct StdinSource {
    alloc: Global,
    stdin: Stdin,
    reader: Option<BufReader<Stdin>>,
    reading: Reading,
}

impl StdinSource {
    /// Standard input, of which nothing is read yet.
    pub fn new(rt: &HostRuntime) -> StdinSource {
        StdinSource {
            alloc: rt.alloc(),
            stdin: rt.stdin(),
            reader: None,
            reading: Reading::new(),
        }
    }

    // Takes memory for the piece that is kept, where that is still to do, and reads.
    fn read_some(&mut self, into: &mut [u8]) -> io::Result<usize>
        ensures bound { ReadsAtMost result into.new }
        ensures reading { self.new.reading ≡ self.old.reading }
    {
        let mut reader = match self.reader.take() {
            Some(reader) => reader,
            None => BufReader::with_capacity(self.alloc, STDIN_PIECE, self.stdin)?,
        };
        let count = reader.read(into);
        self.reader = Some(reader);
        count
    }
}

impl Source for StdinSource {
    ghost left = { λ _. None };

    ghost faults = { λ source. source.reading.errors.faults };

    ghost wants = { λ source. source.reading.errors.wants };

    ghost ended = { λ source. source.reading.ended };

    fn read(&mut self, into: &mut [u8]) -> ReadAnswer {
        let outcome = self.read_some(into);
        self.reading.answer(outcome)
    }
}
