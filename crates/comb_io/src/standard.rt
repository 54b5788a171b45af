//! Readers and writers of the standard library as a source and a sink that tell nothing.
ghost use Rattle.std.specs.Prelude.{◌≡◌, ℕ, ◌<◌, ◌≤◌, length, take, None, OnOk, OnErr, IfOk, IfErr};
ghost use Rattle.std.specs.Io.KnownBytes.{Keeps, Appends, ReadConsumes, WriteAppends};
ghost use Rattle.comb_io.specs.Faults.{CountsFault, HasCause, HasSinkCause};
ghost use Rattle.comb_io.specs.Parts.{AppendsPrefix};

use crate::sinks::{Sink, SinkFault};
use crate::sources::{Failed, Source};
use std::io::{Read, Write};
use std::marker::Model;

/// A reader of the standard library as a source. It counts its faults and tells nothing of the
/// bytes.
#[derive(Debug, Drop)]
pub struct StdSource<R> {
    reader: R,
    faults: u64,
}

impl<R> Model for StdSource<R> {
    ghost use Rattle.comb_io.specs.Standard.{Adapted};

    ghost Value = { Adapted R };

    ghost view = { λ source. record { stream = source.reader; faults = source.faults } };
}

impl<R: Read> StdSource<R> {
    /// The source of what the reader gives, with no fault yet.
    pub fn new(reader: R) -> StdSource<R>
        ensures { result ≡ record { stream = reader; faults = 0 } }
    {
        StdSource { reader, faults: 0 }
    }
}

impl<R: Read> Source for StdSource<R> {
    ghost left = { λ _. None };

    ghost faults = { λ source. source.faults };

    /// One read of the reader; each error of the reader is a fault.
    fn read(&mut self, buf: &mut [u8]) -> Result<usize, Failed>
        requires { 0 < length buf.old }
        ensures bound { IfOk result (λ count. count ≤ length buf.old) }
        ensures cause { HasCause self.old.faults self.new.faults result }
        ensures stream { ReadConsumes (R.remaining self.old.stream) (R.remaining self.new.stream)
            result buf.new }
        ensures count { CountsFault self.old.faults self.new.faults result }
    {
        match self.reader.read(buf) {
            Ok(count) => Ok(count),
            Err(_) => {
                self.faults = self.faults.saturating_add(1);
                Err(Failed)
            }
        }
    }
}

/// A writer of the standard library as a sink, which flushes each write. It counts its faults and
/// tells nothing of the bytes.
#[derive(Debug, Drop)]
pub struct StdSink<W> {
    writer: W,
    faults: u64,
}

impl<W> Model for StdSink<W> {
    ghost use Rattle.comb_io.specs.Standard.{Adapted};

    ghost Value = { Adapted W };

    ghost view = { λ sink. record { stream = sink.writer; faults = sink.faults } };
}

impl<W: Write> StdSink<W> {
    /// The sink that gives what it takes to the writer, with no fault yet.
    pub fn new(writer: W) -> StdSink<W>
        ensures { result ≡ record { stream = writer; faults = 0 } }
    {
        StdSink { writer, faults: 0 }
    }
}

impl<W: Write> Sink for StdSink<W> {
    ghost written = { λ _. None };

    ghost faults = { λ sink. sink.faults };

    /// One write of the writer, and a flush. An error of either is a fault, and so is a writer
    /// that takes nothing. After a fault the writer may have taken bytes that weren't flushed.
    fn write(&mut self, piece: &[u8]) -> Result<usize, SinkFault>
        requires { 0 < length piece.now }
        ensures bound { IfOk result (λ count. (0 < count) × (count ≤ length piece.now)) }
        ensures cause { HasSinkCause self.old.faults self.new.faults result }
        ensures stream { IfOk result (λ count. Appends
            (W.contents self.old.stream) (W.contents self.new.stream) (take count piece.now)) }
        ensures part { OnErr result (AppendsPrefix
            (W.contents self.old.stream) (W.contents self.new.stream) piece.now) }
        ensures count { CountsFault self.old.faults self.new.faults result }
        ensures no_memory { IfErr result (λ fault. fault ≡ SinkFault.Failed) }
    {
        match self.writer.write(piece) {
            Ok(count) if count > 0 && self.writer.flush().is_ok() => Ok(count),
            _ => {
                self.faults = self.faults.saturating_add(1);
                Err(SinkFault::Failed)
            }
        }
    }
}

#[cfg(test)]
mod tests {
    use super::*;
    use crate::sinks::write_all;
    use std::io::{BufWriter, Error, ErrorKind};
    use std::test::Fail;

    /// A reader and writer whose first call fails, and which then gives and takes bytes.
    #[derive(Drop)]
    struct FirstFails {
        calls: u32,
    }

    impl FirstFails {
        fn call(&mut self) -> std::io::Result<()> {
            self.calls = self.calls.saturating_add(1);
            if self.calls == 1 {
                return Err(Error::from(ErrorKind::Interrupted));
            }
            Ok(())
        }
    }

    impl Read for FirstFails {
        fn read(&mut self, buf: &mut [u8]) -> std::io::Result<usize> {
            self.call()?;
            Ok(buf.len())
        }
    }

    impl Write for FirstFails {
        fn write(&mut self, piece: &[u8]) -> std::io::Result<usize> {
            self.call()?;
            Ok(piece.len())
        }

        fn flush(&mut self) -> std::io::Result<()> {
            Ok(())
        }
    }

    #[test]
    fn tries_nothing_again(rt: HostRuntime) {
        let mut source = StdSource::new(FirstFails { calls: 0 });
        assert_eq!(rt; source.read(&mut [0; 2]), Err(Failed));
        assert_eq!(rt; (source.reader.calls, source.faults), (1, 1));
        let mut sink = StdSink::new(FirstFails { calls: 0 });
        assert_eq!(rt; write_all(&mut sink, b"abc"), Err(SinkFault::Failed));
        assert_eq!(rt; (sink.writer.calls, sink.faults), (1, 1));
    }

    #[test]
    fn reads_a_reader(rt: HostRuntime) -> Result<(), Fail> {
        let mut source = StdSource::new(b"abc".as_slice());
        let mut buf = [0; 2];
        for (count, bytes) in [(2, b"ab"), (1, b"cb"), (0, b"cb")] {
            assert_eq!(rt; source.read(&mut buf)?, count);
            assert_eq!(rt; &buf, bytes);
        }
        Ok(())
    }

    #[test]
    fn flushes_each_write(rt: HostRuntime) -> Result<(), Fail> {
        let alloc = rt.alloc();
        let mut sink = StdSink::new(BufWriter::new(alloc, Vec::new(alloc))?);
        write_all(&mut sink, b"abc")?;
        assert_eq!(rt; sink.writer.get_ref().as_slice(), b"abc".as_slice());
        Ok(())
    }

    #[test]
    fn fails_where_the_writer_is_full(rt: HostRuntime) {
        let mut room = [0; 3];
        {
            let mut sink = StdSink::new(room.as_mut_slice());
            assert_eq!(rt; write_all(&mut sink, b"abcd"), Err(SinkFault::Failed));
            assert_eq!(rt; sink.faults, 1);
        }
        assert_eq!(rt; &room, b"abc");
    }
}
