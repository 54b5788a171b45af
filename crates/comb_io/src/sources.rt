//! Sources of bytes, and shelves of files.
ghost use Rattle.std.specs.Prelude.{◌≡◌, ℕ, ◌<◌, ◌≤◌, List, length, take, min, None, OnOk, OnErr, IfOk, Option};
ghost use Rattle.std.specs.Io.KnownBytes.{Keeps, ReadConsumes};
ghost use Rattle.comb_io.specs.Faults.{HasCause};
ghost use Rattle.comb_io.specs.Files.{Files, IsFetched};

use thiserror::Error;

/// A source or a shelf failed.
#[derive(Clone, Copy, Debug, PartialEq, Eq, Error)]
#[error("the source failed")]
pub struct Failed;

/// Gives bytes, in order.
pub trait Source {
    // The bytes that are left, where the source tells them.
    ghost left: { Self → Option (List ℕ) };

    // How many faults there were, up to the last value of the counter.
    ghost faults: { Self → ℕ };

    // The files by name, where the source is a shelf that tells them.
    ghost files: { Self → Option Files } = { λ _. None };

    /// Reads into the front of `buf`, and answers how many bytes: 0 only where nothing is left.
    /// After `Failed` nothing was taken off, and `buf` holds any bytes.
    fn read(&mut self, buf: &mut [u8]) -> Result<usize, Failed>
        requires { 0 < length buf.old }
        ensures bound { IfOk result (λ count. count ≤ length buf.old) }
        ensures bytes { ReadConsumes (left self.old) (left self.new) result buf.new }
        ensures cause { HasCause (faults self.old) (faults self.new) result }
        ensures files { files self.new ≡ files self.old };
}

/// A source that is given a file at a time.
pub trait Shelf: Source {
    /// Takes the file of this name in hand. A name without a file is a fault.
    /// After `Failed` the file in hand is as before.
    fn fetch(&mut self, name: &str) -> Result<(), Failed>
        ensures fetched { OnOk result
            (IsFetched (Self.files self.old) name.now (Self.left self.new)) }
        ensures failed { OnErr result (Keeps (Self.left self.old) (Self.left self.new)) }
        ensures cause { HasCause (Self.faults self.old) (Self.faults self.new) result }
        ensures files { Self.files self.new ≡ Self.files self.old };
}

// Copies as many bytes as there are and as `buf` holds into its front, and answers how many.
pub(crate) fn copy_front(bytes: &[u8], buf: &mut [u8]) -> usize
    ensures count { result ≡ min (length bytes.now) (length buf.old) }
    ensures copied { take result buf.new ≡ take result bytes.now }
{
    let count = bytes.len().min(buf.len());
    buf[..count].copy_from_slice(&bytes[..count]);
    count
}
