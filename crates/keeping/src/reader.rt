//! A reader that keeps what is read.

ghost use Rattle.std.specs.Prelude.{◌≡◌, ◌++◌, IfSome, IsSomeAnd};
ghost use Rattle.std.proofs.Props.{props};
ghost use Rattle.keeping.specs.Kept.{HasRead};

use crate::start::Start;
use std::alloc::Allocator;
use std::io::{self, Read};
use std::marker::PhantomData;

/// The most bytes that a reader keeps.
const INPUT: usize = 16_777_216;

/// A reader that also keeps what is read.
#[derive(Drop)]
pub struct KeepingReader<R: Read, A: Allocator, S: Start> {
    inner: R,
    /// All that was read so far. `None` once it is above the limit, or once a growth was refused.
    kept: Option<Vec<u8, A>>,
    start: PhantomData<S>,
    ghost has_read: { IfSome kept (λ v. HasRead S.remaining (R.remaining inner) v.items) } by { Prim.hlevel props },
}

/// What was stored, followed by these bytes; or nothing, now and later.
fn with_all<A: Allocator>(kept: Option<Vec<u8, A>>, bytes: &[u8]) -> Option<Vec<u8, A>>
    ensures { IfSome result (λ new. IsSomeAnd kept (λ old. new.items ≡ old.items ++ bytes.now)) }
{
    let mut kept = kept?;
    if kept.len().saturating_add(bytes.len()) > INPUT {
        return None;
    }
    match kept.extend_from_slice(bytes) {
        Ok(()) => Some(kept),
        Err(_refused) => None,
    }
}

impl<R: Read, A: Allocator, S: Start> KeepingReader<R, A, S> {
    /// A reader that keeps what is read from now on.
    pub fn new(alloc: A, inner: R) -> KeepingReader<R, A, S>
        requires { S.remaining ≡ R.remaining inner }
        ensures { result.inner ≡ inner }
    {
        KeepingReader {
            inner,
            kept: Some(Vec::new(alloc)),
            start: PhantomData,
        }
    }

    /// The reader inside.
    pub fn into_inner(self) -> R
        ensures { result ≡ self.inner }
    {
        self.inner
    }

    /// All that was read so far, unless it is above the limit or a growth was refused.
    pub fn kept(&self) -> Option<&[u8]>
        ensures { IfSome result (λ bytes. HasRead S.remaining (R.remaining self.now.inner) bytes.now) }
    {
        match &self.kept {
            Some(kept) => Some(kept.as_slice()),
            None => None,
        }
    }
}

impl<R: Read, A: Allocator, S: Start> Read for KeepingReader<R, A, S> {
    ghost remaining = { λ r. R.remaining r.inner };

    fn read(&mut self, buf: &mut [u8]) -> io::Result<usize> {
        match self.inner.read(buf) {
            Ok(count) => {
                self.kept = with_all(self.kept.take(), &buf[..count]);
                Ok(count)
            }
            Err(fault) => Err(fault),
        }
    }
}
