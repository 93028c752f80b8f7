//! Bytes passed to a writer.
#![tactic(auto)]

ghost use Rattle.std.specs.Prelude.{◌≡◌, flat_map};
ghost use Rattle.sink.specs.Sends.{Sends};

use std::io::{self, ErrorKind, Write};

/// Passes the bytes to the writer, in as many calls as it takes. A call that takes no byte is a fault. After an `Err` a
/// beginning of the bytes was taken.
pub fn send<W: Write>(writer: &mut W, bytes: &[u8]) -> io::Result<()>
    ensures { Sends result (W.contents writer.old) (W.contents writer.new) bytes.now }
{
    let mut rest = bytes;
    while !rest.is_empty() {
        match writer.write(rest) {
            Ok(0) => return Err(io::Error::from(ErrorKind::WriteZero)),
            Ok(n) => {
                let (_, after) = rest.split_at(n);
                rest = after;
            }
            Err(e) => return Err(e),
        }
    }
    Ok(())
}

/// Passes the pieces to the writer, one after the other.
pub fn send_all<W: Write>(writer: &mut W, pieces: &[&[u8]]) -> io::Result<()>
    ensures { Sends result (W.contents writer.old) (W.contents writer.new) (flat_map (λ p. p.now) pieces.now) }
{
    for piece in pieces {
        send(writer, piece)?;
    }
    Ok(())
}
