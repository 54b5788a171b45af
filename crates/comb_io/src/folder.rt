//! The files of the current folder as a shelf that tells nothing of them.
ghost use Rattle.std.specs.Prelude.{◌≡◌, ℕ, ◌<◌, ◌≤◌, length, None, IsSome, OnOk, OnErr, IfOk};
ghost use Rattle.std.specs.Io.KnownBytes.{ReadConsumes};
ghost use Rattle.comb_io.specs.Faults.{CountsFault, HasCause};
ghost use Rattle.comb_io.specs.Standard.{ReadsFile};

use crate::sources::{Failed, Shelf, Source};
use std::fs;
use std::io::Read;
use std::marker::Model;
use std::rt::Files;

/// The files of the current folder, by name. It counts its faults and tells nothing of the bytes.
#[derive(Drop)]
pub struct DirShelf<R: Files> {
    rt: R,
    file: Option<R::File>,
    faults: u64,
}

impl<R: Files> Model for DirShelf<R> {
    ghost use Rattle.comb_io.specs.Standard.{Folder};

    ghost Value = { Folder R.File };

    ghost view = { λ shelf. record { file = shelf.file; faults = shelf.faults } };
}

impl<R: Files> DirShelf<R> {
    /// The shelf of the files that the runtime opens, with none in hand and no fault yet.
    pub fn new(rt: R) -> DirShelf<R>
        ensures { result ≡ record { file = None; faults = 0 } }
    {
        DirShelf {
            rt,
            file: None,
            faults: 0,
        }
    }
}

impl<R: Files> Source for DirShelf<R> {
    ghost left = { λ _. None };

    ghost faults = { λ shelf. shelf.faults };

    /// One read of the file in hand; each error is a fault. With none in hand nothing is read.
    fn read(&mut self, buf: &mut [u8]) -> Result<usize, Failed>
        requires { 0 < length buf.old }
        ensures bound { IfOk result (λ count. count ≤ length buf.old) }
        ensures cause { HasCause self.old.faults self.new.faults result }
        ensures file { ReadsFile R.File.remaining self.old.file self.new.file result buf.new }
        ensures count { CountsFault self.old.faults self.new.faults result }
    {
        let Some(file) = &mut self.file else {
            return Ok(0);
        };
        match file.read(buf) {
            Ok(count) => Ok(count),
            Err(_) => {
                self.faults = self.faults.saturating_add(1);
                Err(Failed)
            }
        }
    }
}

impl<R: Files> Shelf for DirShelf<R> {
    /// Opens the file of this name; each error is a fault, and then the file in hand stays.
    fn fetch(&mut self, name: &str) -> Result<(), Failed>
        ensures opened { OnOk result (IsSome self.new.file) }
        ensures kept { OnErr result (self.new.file ≡ self.old.file) }
        ensures cause { HasCause self.old.faults self.new.faults result }
        ensures count { CountsFault self.old.faults self.new.faults result }
    {
        match fs::open(&self.rt, name) {
            Ok(file) => {
                self.file = Some(file);
                Ok(())
            }
            Err(_) => {
                self.faults = self.faults.saturating_add(1);
                Err(Failed)
            }
        }
    }
}

#[cfg(test)]
mod tests {
    use super::*;
    use std::test::Fail;

    #[test]
    fn opens_files(rt: HostRuntime) -> Result<(), Fail> {
        let name = "comb_io_opens_files";
        let folder = "comb_io_opens_no_folder";
        fs::write(&rt, name, b"abcde".as_slice())?;
        let _ = fs::create_dir(&rt, folder);
        let mut shelf = DirShelf::new(&rt);
        let mut buf = [0; 3];
        assert_eq!(rt; shelf.read(&mut buf), Ok(0));
        shelf.fetch(name)?;
        assert_eq!(rt; shelf.fetch("comb_io_has_no_such_file"), Err(Failed));
        for (count, bytes) in [(3, b"abc"), (2, b"dec"), (0, b"dec")] {
            assert_eq!(rt; shelf.read(&mut buf), Ok(count));
            assert_eq!(rt; &buf, bytes);
        }
        shelf.fetch(folder)?;
        assert_eq!(rt; shelf.read(&mut buf), Err(Failed));
        assert_eq!(rt; shelf.faults, 2);
        fs::remove_file(&rt, name)?;
        fs::remove_dir(&rt, folder)?;
        Ok(())
    }
}
