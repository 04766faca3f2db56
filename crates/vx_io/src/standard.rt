// Readers and writers of the standard library as the ends of a program, standard input and output among them: the trusted edge.
ghost use Rattle.std.specs.Prelude.{◌≡◌, ◌<◌, ◌≤◌, length, take, None, IfOk, IfSome};
ghost use Rattle.std.specs.Io.KnownBytes.{Appends, ReadConsumes};
ghost use Rattle.vx_io.specs.Ends.{HasCause, ReadsFrom, WritesTo};

use crate::sinks::{Sink, WriteFailed};
use crate::sources::{ReadFailed, Source};
use std::fmt;
use std::io::{Read, Stdin, Stdout, Write};

/// A reader as a source. It tells no bytes, and counts its errors. It takes what its reader gives, once for each read.
#[derive(Drop)]
pub struct ReaderSource<R: Read + Drop> {
    reader: R,
    faults: u64,
}

/// Standard input as a source.
pub type StdinSource = ReaderSource<Stdin>;

/// A writer as a sink. It tells no bytes, and counts its errors. Each write is flushed; a write that takes nothing and a
/// flush that fails are errors too.
#[derive(Drop)]
pub struct WriterSink<W: Write + Drop> {
    writer: W,
    faults: u64,
}

/// Standard output as a sink.
pub type StdoutSink = WriterSink<Stdout>;

/// Without the end itself, which has no text.
impl<R: Read + Drop> fmt::Debug for ReaderSource<R> {
    fn fmt<F: fmt::Write>(&self, f: &mut fmt::Formatter<F>) -> fmt::Result {
        f.debug_struct("ReaderSource")
            .field("faults", &self.faults)
            .finish_non_exhaustive()
    }
}

/// Without the end itself, which has no text.
impl<W: Write + Drop> fmt::Debug for WriterSink<W> {
    fn fmt<F: fmt::Write>(&self, f: &mut fmt::Formatter<F>) -> fmt::Result {
        f.debug_struct("WriterSink")
            .field("faults", &self.faults)
            .finish_non_exhaustive()
    }
}

impl<R: Read + Drop> ReaderSource<R> {
    /// The reader as a source, without faults so far.
    pub fn new(reader: R) -> ReaderSource<R>
        ensures reader { result.reader ≡ reader }
        ensures faults { result.faults ≡ 0 }
    {
        ReaderSource { reader, faults: 0 }
    }
}

impl<W: Write + Drop> WriterSink<W> {
    /// The writer as a sink, without faults so far.
    pub fn new(writer: W) -> WriterSink<W>
        ensures writer { result.writer ≡ writer }
        ensures faults { result.faults ≡ 0 }
    {
        WriterSink { writer, faults: 0 }
    }

    // How many bytes were written and flushed, if no error came.
    #[tactic(auto, using(crate::proofs::Known::appends_kept))]
    fn write_and_flush(&mut self, piece: &[u8]) -> Option<usize>
        ensures bound { IfSome result (λ n. n ≤ length piece.now) }
        ensures same { self.new.faults ≡ self.old.faults }
        ensures writer { IfSome result (λ n. Appends (W.contents self.old.writer) (W.contents self.new.writer) (take n piece.now)) }
    {
        let n = self.writer.write(piece).ok()?;
        self.writer.flush().ok()?;
        Some(n)
    }
}

impl<R: Read + Drop> Source for ReaderSource<R> {
    ghost left = { λ _. None };

    ghost faults = { λ s. s.faults };

    fn read(&mut self, into: &mut [u8]) -> Result<usize, ReadFailed>
        ensures bound { IfOk result (λ n. n ≤ length into.old) }
        ensures bytes { ReadsFrom None None into.new result }
        ensures cause { HasCause self.old.faults self.new.faults result }
        ensures quiet { IfOk result (λ _. self.new.faults ≡ self.old.faults) }
        ensures reader { ReadConsumes (R.remaining self.old.reader) (R.remaining self.new.reader) result into.new }
    {
        match self.reader.read(into) {
            Ok(n) => Ok(n),
            Err(_) => {
                self.faults = self.faults.saturating_add(1);
                Err(ReadFailed)
            }
        }
    }
}

impl<W: Write + Drop> Sink for WriterSink<W> {
    ghost written = { λ _. None };

    ghost faults = { λ s. s.faults };

    #[tactic(auto, using(crate::proofs::Known::appends_nothing))]
    fn write(&mut self, piece: &[u8]) -> Result<usize, WriteFailed>
        ensures bound { IfOk result (λ n. n ≤ length piece.now) }
        ensures moves { IfOk result (λ n. 0 < length piece.now → 0 < n) }
        ensures bytes { WritesTo None None piece.now result }
        ensures cause { HasCause self.old.faults self.new.faults result }
        ensures writer { IfOk result (λ n. Appends (W.contents self.old.writer) (W.contents self.new.writer) (take n piece.now)) }
    {
        if piece.is_empty() {
            return Ok(0);
        }
        match self.write_and_flush(piece) {
            Some(n) if n > 0 => Ok(n),
            _ => {
                self.faults = self.faults.saturating_add(1);
                Err(WriteFailed)
            }
        }
    }
}
