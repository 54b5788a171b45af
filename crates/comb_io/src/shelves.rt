//! A shelf in memory that fails at chosen calls.
ghost use Rattle.std.specs.Prelude.{◌≡◌, ℕ, ◌<◌, ◌≤◌, ◌↔◌, List, [], min, length, position, bytes_eq, is_none, None, Some, IsErr, IsTrue, OnOk, OnErr, OnSome, IfOk, IfSome};
ghost use Rattle.std.specs.Io.KnownBytes.{ReadConsumes};
ghost use Rattle.comb_io.specs.Faults.{HasCause};
ghost use Rattle.comb_io.specs.Files.{IsFetched, put_file};
ghost use Rattle.comb_io.specs.Memory.{after, after_call, is_failing};
ghost use Rattle.comb_io.specs.Shelves.{bytes_at, fetch_fails, newest};

use crate::calls::CallCounter;
use crate::sources::{Failed, Shelf, Source, copy_front};
use std::alloc::{AllocError, Global};
use std::marker::Model;

#[derive(Debug, Drop)]
struct NamedFile {
    name: String,
    bytes: Vec<u8>,
}

impl Model for NamedFile {
    ghost use Rattle.std.specs.Prelude.{ℕ, List, string_bytes};

    ghost Value = { List ℕ × List ℕ };

    ghost view = { λ file. (string_bytes file.name, file.bytes.items) };
}

/// Files in memory, by name. Chosen fetches and reads fail, as does a fetch of a name without a
/// file.
#[derive(Debug, Drop)]
pub struct MemShelf {
    // The newest first. A file that was replaced stays, since it may be in hand.
    files: Vec<NamedFile>,
    // The place of the file in hand.
    in_hand: Option<usize>,
    // How many bytes of it are left.
    unread: usize,
    calls: CallCounter,
}

impl Model for MemShelf {
    ghost use Rattle.comb_io.specs.Shelves.{InMemoryShelf, IsInHand, last_at};

    ghost Value = { InMemoryShelf };

    ghost view = { λ shelf. record {
      files = shelf.files.items;
      left = last_at shelf.files.items shelf.in_hand shelf.unread;
      calls = shelf.calls;
    } };

    ghost invariant = { λ shelf. IsInHand shelf.files.items shelf.in_hand shelf.unread };
}

impl MemShelf {
    /// A shelf without a file. The fetches and reads, numbered together from 0, whose numbers are
    /// in `failing` fail, as does a fetch of a name that has no file, and no others.
    pub fn new(alloc: Global, failing: &[u64]) -> Result<MemShelf, AllocError>
        ensures { IfOk result (λ shelf. shelf ≡ record {
          files = [];
          left = [];
          calls = record { failing = failing.now; number = 0; faults = 0 };
        }) }
    {
        Ok(MemShelf {
            files: Vec::new(alloc),
            in_hand: None,
            unread: 0,
            calls: CallCounter::new(alloc, failing)?,
        })
    }

    /// Puts a file under this name, in the place of the one that is there. What is left of the
    /// file in hand stays. Where memory is wanting the shelf is as before.
    pub fn put(&mut self, name: &str, bytes: &[u8]) -> Result<(), AllocError>
        ensures put { OnOk result
            (newest self.new.files ≡ put_file (newest self.old.files) name.now bytes.now) }
        ensures left { self.new.left ≡ self.old.left }
        ensures calls { self.new.calls ≡ self.old.calls }
        ensures err { OnErr result (self.new ≡ self.old) }
    {
        let alloc = *self.files.allocator();
        let file = NamedFile {
            name: String::from_str(alloc, name)?,
            bytes: bytes.to_vec(alloc)?,
        };
        self.files.insert(0, file)?;
        if let Some(place) = &mut self.in_hand {
            *place += 1;
        }
        Ok(())
    }

    // Where the newest file of this name stands.
    fn place_of(&self, name: &str) -> Option<usize>
        ensures { result ≡ position (λ file. bytes_eq name.now file.0) self.now.files }
    {
        self.files
            .iter()
            .position(|file| name == file.name.as_str())
    }

    // Where the file of this name stands, unless a fetch of it is to fail.
    fn fetched_place(&self, name: &str) -> Option<usize>
        ensures none { is_none result ≡ fetch_fails self.now name.now }
        ensures place { IfSome result (λ place. place < length self.now.files) }
        ensures bytes { OnSome result
            (newest self.now.files name.now ≡ Some (bytes_at self.now.files result)) }
    {
        if self.calls.next_fails() {
            return None;
        }
        self.place_of(name)
    }

    // What is left of the file in hand.
    fn bytes_left(&self) -> &[u8]
        ensures { result.now ≡ self.now.left }
    {
        match self.in_hand {
            None => &[],
            Some(place) => {
                let bytes = &self.files[place].bytes;
                &bytes[bytes.len() - self.unread..]
            }
        }
    }
}

impl Source for MemShelf {
    ghost left = { λ shelf. Some shelf.left };

    ghost faults = { λ shelf. shelf.calls.faults };

    ghost files = { λ shelf. Some (newest shelf.files) };

    /// Reads as much of the file in hand as there is and as `buf` holds, unless this call is to
    /// fail.
    fn read(&mut self, buf: &mut [u8]) -> Result<usize, Failed>
        requires { 0 < length buf.old }
        ensures bound { IfOk result (λ count. count ≤ length buf.old) }
        ensures bytes { ReadConsumes (Some self.old.left) (Some self.new.left) result buf.new }
        ensures cause { HasCause self.old.calls.faults self.new.calls.faults result }
        ensures files { self.new.files ≡ self.old.files }
        ensures fails { IsErr result ↔ IsTrue (is_failing self.old.calls) }
        ensures count { IfOk result (λ count. count
            ≡ min (length self.old.left) (length buf.old)) }
        ensures calls { self.new.calls ≡ after_call self.old.calls }
    {
        if self.calls.fails() {
            return Err(Failed);
        }
        let count = copy_front(self.bytes_left(), buf);
        self.unread -= count;
        Ok(count)
    }
}

impl Shelf for MemShelf {
    /// Takes the newest file of this name in hand, from its start, unless this call is to fail.
    /// A name without a file is a fault.
    fn fetch(&mut self, name: &str) -> Result<(), Failed>
        ensures fetched { OnOk result (newest self.old.files name.now ≡ Some self.new.left) }
        ensures failed { OnErr result (self.new.left ≡ self.old.left) }
        ensures cause { HasCause self.old.calls.faults self.new.calls.faults result }
        ensures files { self.new.files ≡ self.old.files }
        ensures fails { IsErr result ↔ IsTrue (fetch_fails self.old name.now) }
        ensures calls { self.new.calls ≡ after (fetch_fails self.old name.now) self.old.calls }
    {
        let place = self.fetched_place(name);
        self.calls.count(place.is_none());
        let place = place.ok_or(Failed)?;
        self.in_hand = Some(place);
        self.unread = self.files[place].bytes.len();
        Ok(())
    }
}

#[cfg(test)]
mod tests {
    use super::*;
    use std::test::Fail;

    #[test]
    fn hands_out_files(rt: HostRuntime) -> Result<(), Fail> {
        let mut shelf = MemShelf::new(rt.alloc(), &[2])?;
        let mut buf = [0; 3];
        assert_eq!(rt; shelf.read(&mut buf), Ok(0));
        shelf.put("poem", b"abcd")?;
        shelf.put("song", b"ef")?;
        shelf.fetch("poem")?;
        assert_eq!(rt; shelf.fetch("song"), Err(Failed));
        shelf.put("poem", b"gh")?;
        for (count, bytes) in [(3, b"abc"), (1, b"dbc"), (0, b"dbc")] {
            assert_eq!(rt; shelf.read(&mut buf)?, count);
            assert_eq!(rt; &buf, bytes);
        }
        assert_eq!(rt; shelf.fetch("prose"), Err(Failed));
        for (name, bytes) in [("poem", b"ghc"), ("song", b"efc")] {
            shelf.fetch(name)?;
            assert_eq!(rt; shelf.read(&mut buf)?, 2);
            assert_eq!(rt; &buf, bytes);
        }
        Ok(())
    }
}
