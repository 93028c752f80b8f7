//! All bytes of a file.

ghost use Rattle.std.specs.Prelude.{◌≡◌, ◌≤◌, IfOk, IfSome, length};

use crate::unread::Unread;
use std::alloc::Allocator;
use std::io::Read;

/// The most bytes that a file may have.
pub const LIMIT: usize = 67_108_864;

/// Reads all bytes of the reader.
pub fn read_bytes<A: Allocator, R: Read>(alloc: A, reader: &mut R) -> Result<Vec<u8, A>, Unread>
    ensures all { IfOk result (λ v. IfSome (R.remaining reader.old) (λ xs. v.items ≡ xs)) }
    ensures few { IfOk result (λ v. length v.items ≤ 67108864) }
{
    let mut bytes = Vec::new(alloc);
    let mut chunk = [0u8; 4096];
    for _ in 0..=LIMIT {
        let count = match reader.read(&mut chunk) {
            Ok(count) => count,
            Err(fault) => return Err(Unread::of(fault.kind())),
        };
        if count == 0 {
            return Ok(bytes);
        }
        let Ok(()) = bytes.extend_from_slice(&chunk[..count]) else {
            return Err(Unread::Memory);
        };
        if bytes.len() > LIMIT {
            return Err(Unread::TooLarge);
        }
    }
    Err(Unread::TooLarge)
}
