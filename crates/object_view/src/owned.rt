//! Objects that own their bytes.

ghost use Rattle.std.specs.Prelude.{◌≡◌, IfOk};
ghost use Rattle.semantics.specs.Versions.{version_number};
ghost use Rattle.semantics.specs.Bytes.{IsCode, bytes_of};

use crate::object::Object;
use crate::writing::write;
use code::Code;
use semantics::version::Version;
use std::alloc::{AllocError, Allocator};
use std::marker::Model;

/// An object that owns its bytes. It is a value: nothing of it has to be looked at again before it is run. Contracts see its
/// version, its code and its bytes.
#[derive(Drop)]
pub struct OwnedObject<A: Allocator> {
    bytes: Vec<u8, A>,
}

impl<A: Allocator> Model for OwnedObject<A> {
    ghost use Rattle.std.specs.Prelude.{◌≡◌, Ok, ⊤};
    ghost use Rattle.object_view.specs.declared.fault.ObjectFault.{ObjectFault};
    ghost use Rattle.object_view.specs.Reading.{Opened, opened};
    ghost use Rattle.object_view.specs.Checks.{checked};

    ghost Value = { Opened };

    ghost view = { λ o. opened o.bytes.items };

    ghost invariant = { λ o. checked o.bytes.items ≡ Ok tt };
}

impl<A: Allocator> OwnedObject<A> {
    /// The object of the code in this version.
    pub fn of(alloc: A, code: &Code<A>, version: Version) -> Result<OwnedObject<A>, AllocError>
        requires { IsCode (version_number version) code.now }
        ensures bytes { IfOk result (λ o. o.bytes ≡ bytes_of (version_number version) code.now) }
        ensures version { IfOk result (λ o. o.version ≡ version_number version) }
        ensures code { IfOk result (λ o. o.code ≡ code.now) }
    {
        let mut bytes = Vec::new(alloc);
        match write(code, version, &mut bytes) {
            Ok(()) => Ok(OwnedObject { bytes }),
            Err(_) => Err(AllocError),
        }
    }

    /// The bytes of the object.
    pub fn bytes(&self) -> &[u8]
        ensures { result.now ≡ self.now.bytes }
    {
        &self.bytes
    }

    /// The object where it lies. What was once checked is not checked again: takes time in proportion to the number of blocks.
    pub fn as_object(&self) -> Object<'_>
        ensures { result ≡ self.now }
    {
        Object::of_checked(&self.bytes)
    }
}
