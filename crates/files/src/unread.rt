//! Why a file cannot be read, and what is said of it.

ghost use Rattle.std.specs.Prelude.{◌≡◌};
ghost use Rattle.sink.specs.Sends.{Sends};
ghost use Rattle.files.specs.Files.{unread_line, unread_of, unread_text, unread_words};

use sink::send_all;
use std::io::{self, ErrorKind, Write};

/// Why a file cannot be read.
#[derive(Clone, Copy, Debug, PartialEq, Eq)]
pub enum Unread {
    Missing,
    Denied,
    Directory,
    NotDirectory,
    /// It has more than 67,108,864 bytes.
    TooLarge,
    /// Symbolic links that lead to one another.
    Links,
    LongName,
    Memory,
    /// Another fault of opening or of reading.
    Other,
}

impl Unread {
    /// What a fault of this kind says.
    pub fn of(kind: ErrorKind) -> Unread
        ensures { result ≡ unread_of kind }
    {
        match kind {
            ErrorKind::NotFound => Unread::Missing,
            ErrorKind::PermissionDenied => Unread::Denied,
            ErrorKind::IsADirectory => Unread::Directory,
            ErrorKind::NotADirectory => Unread::NotDirectory,
            ErrorKind::FileTooLarge => Unread::TooLarge,
            ErrorKind::FilesystemLoop => Unread::Links,
            ErrorKind::InvalidFilename => Unread::LongName,
            ErrorKind::OutOfMemory => Unread::Memory,
            _ => Unread::Other,
        }
    }

    /// Its words, as those of the C library.
    fn text(self) -> &'static [u8]
        ensures { result.now ≡ unread_text self }
    {
        match self {
            Unread::Missing => b"No such file or directory",
            Unread::Denied => b"Permission denied",
            Unread::Directory => b"Is a directory",
            Unread::NotDirectory => b"Not a directory",
            Unread::TooLarge => b"File too large",
            Unread::Links => b"Too many levels of symbolic links",
            Unread::LongName => b"File name too long",
            Unread::Memory => b"Cannot allocate memory",
            Unread::Other => b"Input/output error",
        }
    }
}

/// The line with this name and these words.
fn send_line<W: Write>(writer: &mut W, name: &[u8], text: &[u8]) -> io::Result<()>
    ensures { Sends result (W.contents writer.old) (W.contents writer.new) (unread_words name.now text.now) }
{
    send_all(writer, &[b"ets: cannot read ", name, b": ", text, b"\n"])
}

/// Says why the file of this name cannot be read.
pub fn send_unread<W: Write>(writer: &mut W, name: &str, unread: Unread) -> io::Result<()>
    ensures { Sends result (W.contents writer.old) (W.contents writer.new) (unread_line name.now unread) }
{
    send_line(writer, name.as_bytes(), unread.text())
}
