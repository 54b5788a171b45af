//! A source, a sink and a shelf in memory that never fail.
ghost use Rattle.std.specs.Prelude.{◌≡◌, ℕ, ◌<◌, ◌≤◌, List, [], min, length, Some, Ok, Err, OnOk, IfOk, IfErr};
ghost use Rattle.std.specs.Io.KnownBytes.{ReadConsumes, WriteAppends};
ghost use Rattle.comb_io.specs.Faults.{HasCause, HasSinkCause};

use crate::sinks::{Sink, SinkFault};
use crate::sources::{Failed, Shelf, Source, copy_front};
use std::alloc::Global;
use std::marker::Model;

/// Bytes in memory that are read to their end and never fail.
#[derive(Debug, Drop)]
pub struct SureSource<'a> {
    left: &'a [u8],
}

impl<'a> Model for SureSource<'a> {
    ghost use Rattle.std.specs.Prelude.{ℕ, List};

    ghost Value = { List ℕ };

    ghost view = { λ source. source.left.now };
}

impl SureSource<'_> {
    /// A source of these bytes.
    pub fn new(bytes: &[u8]) -> SureSource<'_>
        ensures { result ≡ bytes.now }
    {
        SureSource { left: bytes }
    }
}

impl Source for SureSource<'_> {
    ghost left = { λ source. Some source };

    ghost faults = { λ _. 0 };

    /// Reads as much as there is and as `buf` holds.
    fn read(&mut self, buf: &mut [u8]) -> Result<usize, Failed>
        requires { 0 < length buf.old }
        ensures bound { IfOk result (λ count. count ≤ length buf.old) }
        ensures bytes { ReadConsumes (Some self.old) (Some self.new) result buf.new }
        ensures cause { HasCause 0 0 result }
        ensures count { result ≡ Ok (min (length self.old) (length buf.old)) }
    {
        let left = self.left;
        let count = copy_front(left, buf);
        self.left = &left[count..];
        Ok(count)
    }
}

/// A vector that takes each piece whole; only memory may run out.
#[derive(Debug, Drop)]
pub struct SureSink {
    bytes: Vec<u8>,
}

impl Model for SureSink {
    ghost use Rattle.std.specs.Prelude.{ℕ, List};

    ghost Value = { List ℕ };

    ghost view = { λ sink. sink.bytes.items };
}

impl SureSink {
    /// A sink to which nothing was written.
    pub fn new(alloc: Global) -> SureSink
        ensures { result ≡ [] }
    {
        SureSink {
            bytes: Vec::new(alloc),
        }
    }

    /// What was written.
    pub fn bytes(&self) -> &[u8]
        ensures { result.now ≡ self.now }
    {
        &self.bytes
    }
}

impl Sink for SureSink {
    ghost written = { λ sink. Some sink };

    ghost faults = { λ _. 0 };

    /// Takes the whole piece, unless memory runs out.
    fn write(&mut self, piece: &[u8]) -> Result<usize, SinkFault>
        requires { 0 < length piece.now }
        ensures bound { IfOk result (λ count. (0 < count) × (count ≤ length piece.now)) }
        ensures bytes { WriteAppends (Some self.old) (Some self.new) result piece.now }
        ensures cause { HasSinkCause 0 0 result }
        ensures count { IfOk result (λ count. count ≡ length piece.now) }
        ensures memory { IfErr result (λ fault. fault ≡ SinkFault.Memory) }
    {
        self.bytes
            .extend_from_slice(piece)
            .map_err(|_| SinkFault::Memory)?;
        Ok(piece.len())
    }
}

/// A shelf that has the same bytes under every name and never fails.
#[derive(Debug, Drop)]
pub struct SureShelf<'a> {
    bytes: &'a [u8],
    in_hand: SureSource<'a>,
}

impl<'a> Model for SureShelf<'a> {
    ghost use Rattle.comb_io.specs.Sure.{OneFile};

    ghost Value = { OneFile };

    ghost view = { λ shelf. record { bytes = shelf.bytes.now; left = shelf.in_hand } };
}

impl SureShelf<'_> {
    /// A shelf of these bytes, with no file in hand.
    pub fn new(bytes: &[u8]) -> SureShelf<'_>
        ensures { result ≡ record { bytes = bytes.now; left = [] } }
    {
        SureShelf {
            bytes,
            in_hand: SureSource::new(&[]),
        }
    }
}

impl Source for SureShelf<'_> {
    ghost left = { λ shelf. Some shelf.left };

    ghost faults = { λ _. 0 };

    ghost files = { λ shelf. Some (λ _. Some shelf.bytes) };

    /// Reads as much of the file in hand as there is and as `buf` holds.
    fn read(&mut self, buf: &mut [u8]) -> Result<usize, Failed>
        requires { 0 < length buf.old }
        ensures bound { IfOk result (λ count. count ≤ length buf.old) }
        ensures bytes { ReadConsumes (Some self.old.left) (Some self.new.left) result buf.new }
        ensures cause { HasCause 0 0 result }
        ensures files { self.new.bytes ≡ self.old.bytes }
        ensures count { result ≡ Ok (min (length self.old.left) (length buf.old)) }
    {
        self.in_hand.read(buf)
    }
}

impl Shelf for SureShelf<'_> {
    /// Takes the bytes in hand from their start, whatever the name.
    fn fetch(&mut self, _name: &str) -> Result<(), Failed>
        ensures cause { HasCause 0 0 result }
        ensures sure { result ≡ Ok tt }
        ensures fetched { self.new.left ≡ self.old.bytes }
        ensures files { self.new.bytes ≡ self.old.bytes }
    {
        self.in_hand = SureSource::new(self.bytes);
        Ok(())
    }
}

#[cfg(test)]
mod tests {
    use super::*;
    use crate::sinks::write_all;
    use std::test::Fail;

    #[test]
    fn reads_to_the_end(rt: HostRuntime) -> Result<(), Fail> {
        let mut source = SureSource::new(b"abcde");
        let mut buf = [0; 3];
        for (count, bytes) in [(3, b"abc"), (2, b"dec"), (0, b"dec")] {
            assert_eq!(rt; source.read(&mut buf)?, count);
            assert_eq!(rt; &buf, bytes);
        }
        Ok(())
    }

    #[test]
    fn keeps_what_is_written(rt: HostRuntime) -> Result<(), Fail> {
        let mut sink = SureSink::new(rt.alloc());
        assert_eq!(rt; sink.write(b"ab")?, 2);
        write_all(&mut sink, b"")?;
        write_all(&mut sink, b"cde")?;
        assert_eq!(rt; sink.bytes(), b"abcde".as_slice());
        Ok(())
    }

    #[test]
    fn has_each_name(rt: HostRuntime) -> Result<(), Fail> {
        let mut shelf = SureShelf::new(b"ab");
        let mut buf = [0; 4];
        assert_eq!(rt; shelf.read(&mut buf)?, 0);
        for name in ["first", "second"] {
            shelf.fetch(name)?;
            assert_eq!(rt; shelf.read(&mut buf)?, 2);
            assert_eq!(rt; &buf, b"ab\0\0");
        }
        Ok(())
    }
}
