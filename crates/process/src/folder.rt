//! Files by their names.

ghost use Rattle.std.specs.Prelude.{◌≤◌, IfOk, length, ⊤};
ghost use Rattle.process.specs.Files.{Has};

use files::{Unread, read_bytes};
use std::alloc::Global;
use std::fs::File;
use std::io::Read;
use std::rt::Files;

/// Where files are, by their names.
pub trait Folder {
    ghost use Rattle.std.specs.Prelude.{ℕ, List};

    /// Whether the file of this name has these bytes, as far as that is known.
    ghost has: { List ℕ → List ℕ → Type 0 };

    /// All bytes of the file of this name.
    fn read_file(&self, alloc: Global, name: &str) -> Result<Vec<u8>, Unread>
        ensures has { IfOk result (λ v. has name.now v.items) }
        ensures few { IfOk result (λ v. length v.items ≤ 67108864) };
}

/// The files of the computer. Nothing is claimed of what they have.
#[derive(Drop)]
pub struct SystemFiles<'r, R> {
    pub rt: &'r R,
}

impl<R: Files> Folder for SystemFiles<'_, R> {
    ghost use Rattle.std.specs.Prelude.{⊤};

    ghost has = { λ name bytes. ⊤ };

    fn read_file(&self, alloc: Global, name: &str) -> Result<Vec<u8>, Unread> {
        match File::open(self.rt, name) {
            Ok(mut file) => read_bytes(alloc, &mut file),
            Err(fault) => Err(Unread::of(fault.kind())),
        }
    }
}

/// All bytes of the file of this name. The file `-` is the reader.
pub fn read_named<F: Folder, I: Read>(
    folder: &F,
    reader: &mut I,
    alloc: Global,
    name: &str,
) -> Result<Vec<u8>, Unread>
    ensures has { IfOk result (λ v. Has F.has (I.remaining reader.old) name.now v.items) }
    ensures few { IfOk result (λ v. length v.items ≤ 67108864) }
{
    if name == "-" {
        read_bytes(alloc, reader)
    } else {
        folder.read_file(alloc, name)
    }
}
