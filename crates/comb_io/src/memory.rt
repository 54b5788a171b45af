//! A source and a sink in memory that move a few bytes at a time and fail at chosen calls.
ghost use Rattle.std.specs.Prelude.{◌≡◌, ℕ, ◌<◌, ◌≤◌, ◌↔◌, List, [], min, length, Some, Ok, Err, IsErr, IsTrue, IfOk};
ghost use Rattle.std.specs.Io.KnownBytes.{ReadConsumes, WriteAppends};
ghost use Rattle.comb_io.specs.Faults.{HasCause, HasSinkCause};
ghost use Rattle.comb_io.specs.Memory.{after_call, is_failing};

use crate::calls::CallCounter;
use crate::sinks::{Sink, SinkFault};
use crate::sources::{Failed, Source, copy_front};
use std::alloc::{AllocError, Global};
use std::marker::Model;

/// Bytes in memory of which a read gives a few at most, and of which chosen reads fail.
#[derive(Debug, Drop)]
pub struct MemSource {
    bytes: Vec<u8>,
    taken: usize,
    most: usize,
    calls: CallCounter,
}

impl Model for MemSource {
    ghost use Rattle.std.specs.Prelude.{◌<◌, ◌≤◌, length, drop};
    ghost use Rattle.comb_io.specs.Memory.{InMemory};

    ghost Value = { InMemory };

    ghost view = { λ source. record {
      bytes = drop source.taken source.bytes.items;
      most = source.most;
      calls = source.calls;
    } };

    ghost invariant = { λ source. (source.taken ≤ length source.bytes.items) × (0 < source.most) };
}

impl MemSource {
    /// A source of these bytes. A read gives at most `most` of them, and the reads whose numbers,
    /// from 0, are in `failing` fail, and no others.
    pub fn new(
        alloc: Global,
        bytes: &[u8],
        most: usize,
        failing: &[u64],
    ) -> Result<MemSource, AllocError>
        requires { 0 < most }
        ensures { IfOk result (λ source. source ≡ record {
          bytes = bytes.now;
          most = most;
          calls = record { failing = failing.now; number = 0; faults = 0 };
        }) }
    {
        Ok(MemSource {
            bytes: bytes.to_vec(alloc)?,
            taken: 0,
            most,
            calls: CallCounter::new(alloc, failing)?,
        })
    }
}

impl Source for MemSource {
    ghost left = { λ source. Some source.bytes };

    ghost faults = { λ source. source.calls.faults };

    /// Reads as much as there is, as `buf` holds and as a read gives, unless this read is to fail.
    fn read(&mut self, buf: &mut [u8]) -> Result<usize, Failed>
        requires { 0 < length buf.old }
        ensures bound { IfOk result (λ count. count ≤ length buf.old) }
        ensures bytes { ReadConsumes (Some self.old.bytes) (Some self.new.bytes) result buf.new }
        ensures cause { HasCause self.old.calls.faults self.new.calls.faults result }
        ensures fails { IsErr result ↔ IsTrue (is_failing self.old.calls) }
        ensures count { IfOk result (λ count. count
            ≡ min self.old.most (min (length self.old.bytes) (length buf.old))) }
        ensures calls { self.new.calls ≡ after_call self.old.calls }
        ensures most { self.new.most ≡ self.old.most }
    {
        if self.calls.fails() {
            return Err(Failed);
        }
        let left = &self.bytes[self.taken..];
        let count = copy_front(&left[..left.len().min(self.most)], buf);
        self.taken += count;
        Ok(count)
    }
}

/// A vector that takes a few bytes of a piece at most, and of whose writes chosen ones fail.
#[derive(Debug, Drop)]
pub struct MemSink {
    bytes: Vec<u8>,
    most: usize,
    calls: CallCounter,
}

impl Model for MemSink {
    ghost use Rattle.std.specs.Prelude.{◌<◌};
    ghost use Rattle.comb_io.specs.Memory.{InMemory};

    ghost Value = { InMemory };

    ghost view = { λ sink. record {
      bytes = sink.bytes.items;
      most = sink.most;
      calls = sink.calls;
    } };

    ghost invariant = { λ sink. 0 < sink.most };
}

impl MemSink {
    /// A sink to which nothing was written. A write takes at most `most` bytes, and the writes
    /// whose numbers, from 0, are in `failing` fail, and no others.
    pub fn new(alloc: Global, most: usize, failing: &[u64]) -> Result<MemSink, AllocError>
        requires { 0 < most }
        ensures { IfOk result (λ sink. sink ≡ record {
          bytes = [];
          most = most;
          calls = record { failing = failing.now; number = 0; faults = 0 };
        }) }
    {
        Ok(MemSink {
            bytes: Vec::new(alloc),
            most,
            calls: CallCounter::new(alloc, failing)?,
        })
    }

    /// What was written.
    pub fn bytes(&self) -> &[u8]
        ensures { result.now ≡ self.now.bytes }
    {
        &self.bytes
    }
}

impl Sink for MemSink {
    ghost written = { λ sink. Some sink.bytes };

    ghost faults = { λ sink. sink.calls.faults };

    /// Takes as much of the piece as a write takes, unless this write is to fail or memory runs out.
    fn write(&mut self, piece: &[u8]) -> Result<usize, SinkFault>
        requires { 0 < length piece.now }
        ensures bound { IfOk result (λ count. (0 < count) × (count ≤ length piece.now)) }
        ensures bytes { WriteAppends (Some self.old.bytes) (Some self.new.bytes) result piece.now }
        ensures cause { HasSinkCause self.old.calls.faults self.new.calls.faults result }
        ensures fails { (result ≡ Err SinkFault.Failed) ↔ IsTrue (is_failing self.old.calls) }
        ensures count { IfOk result (λ count. count ≡ min self.old.most (length piece.now)) }
        ensures calls { self.new.calls ≡ after_call self.old.calls }
        ensures most { self.new.most ≡ self.old.most }
    {
        if self.calls.fails() {
            return Err(SinkFault::Failed);
        }
        let count = piece.len().min(self.most);
        self.bytes
            .extend_from_slice(&piece[..count])
            .map_err(|_| SinkFault::Memory)?;
        Ok(count)
    }
}

#[cfg(test)]
mod tests {
    use super::*;
    use crate::sinks::write_all;
    use std::test::Fail;

    #[test]
    fn reads_fail_by_number(rt: HostRuntime) -> Result<(), Fail> {
        let mut source = MemSource::new(rt.alloc(), b"abc", 2, &[0, 2])?;
        let mut buf = [0; 4];
        for answer in [Err(Failed), Ok(2), Err(Failed), Ok(1), Ok(0)] {
            assert_eq!(rt; source.read(&mut buf), answer);
        }
        assert_eq!(rt; &buf, b"cb\0\0");
        Ok(())
    }

    #[test]
    fn writes_fail_by_number(rt: HostRuntime) -> Result<(), Fail> {
        let mut sink = MemSink::new(rt.alloc(), 8, &[1])?;
        assert_eq!(rt; write_all(&mut sink, b"0123456789"), Err(SinkFault::Failed));
        assert_eq!(rt; sink.bytes(), b"01234567".as_slice());
        write_all(&mut sink, b"89")?;
        assert_eq!(rt; sink.bytes(), b"0123456789".as_slice());
        Ok(())
    }
}
