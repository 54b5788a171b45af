//! Sinks of bytes.
ghost use Rattle.std.specs.Prelude.{◌≡◌, ℕ, ◌<◌, ◌≤◌, List, [], length, OnOk, OnErr, IfOk, Option};
ghost use Rattle.std.specs.Io.KnownBytes.{Appends, WriteAppends};
ghost use Rattle.comb_io.specs.Faults.{HasSinkCause};
ghost use Rattle.comb_io.specs.Parts.{AppendsProperPrefix};

use thiserror::Error;

/// Why a call on a sink took nothing more.
#[derive(Clone, Copy, Debug, PartialEq, Eq, Error)]
pub enum SinkFault {
    #[error("the sink failed")]
    Failed,
    #[error("memory ran out")]
    Memory,
}

/// Takes bytes, in order.
pub trait Sink {
    // The bytes that were written, where the sink tells them.
    ghost written: { Self → Option (List ℕ) };

    // How many faults there were, up to the last value of the counter.
    ghost faults: { Self → ℕ };

    /// Writes the front of `piece`, and answers how many bytes: at least one.
    /// After a fault nothing was written.
    fn write(&mut self, piece: &[u8]) -> Result<usize, SinkFault>
        requires { 0 < length piece.now }
        ensures bound { IfOk result (λ count. (0 < count) × (count ≤ length piece.now)) }
        ensures bytes { WriteAppends (written self.old) (written self.new) result piece.now }
        ensures cause { HasSinkCause (faults self.old) (faults self.new) result };
}

/// Writes the whole piece, in as many writes as that takes. After a fault the sink holds a part
/// of the piece from its front, and never all of it.
pub fn write_all<O: Sink>(sink: &mut O, piece: &[u8]) -> Result<(), SinkFault>
    ensures whole { OnOk result (Appends (O.written sink.old) (O.written sink.new) piece.now) }
    ensures part { OnErr result
        (AppendsProperPrefix (O.written sink.old) (O.written sink.new) piece.now) }
    ensures cause { HasSinkCause (O.faults sink.old) (O.faults sink.new) result }
    ensures empty { piece.now ≡ [] → sink.new ≡ sink.old }
{
    let mut rest = piece;
    while !rest.is_empty() {
        let count = sink.write(rest)?;
        rest = &rest[count..];
    }
    Ok(())
}
