//! What becomes of bytes that may be an object.

ghost use Rattle.std.specs.Prelude.{◌≡◌, IfOk};
ghost use Rattle.object_view.specs.Checks.{first_refusal};
ghost use Rattle.test_object_changes.specs.Outcomes.{outcome};

use object_view::{Object, ObjectFault, write};
use std::alloc::Allocator;
use std::io;

/// What becomes of bytes that may be an object.
#[derive(Clone, Copy, Debug, PartialEq, Eq)]
pub enum Outcome {
    Refused(ObjectFault),
    /// They were opened, taken apart and written again to the same bytes.
    Same,
    /// They were opened, taken apart and written again to other bytes.
    Other,
}

/// Each refusal.
pub const FAULTS: [ObjectFault; 9] = [
    ObjectFault::Truncated,
    ObjectFault::BadMagic,
    ObjectFault::BadVersion,
    ObjectFault::BadTable,
    ObjectFault::BadOpcode,
    ObjectFault::BadDestination,
    ObjectFault::BadSlot,
    ObjectFault::BadLiteral,
    ObjectFault::Trailing,
];

impl Outcome {
    /// The outcome, as a word.
    pub fn name(self) -> &'static str {
        match self {
            Outcome::Refused(fault) => fault_name(fault),
            Outcome::Same => "ok",
            Outcome::Other => "written otherwise",
        }
    }
}

/// The name of a refusal.
fn fault_name(fault: ObjectFault) -> &'static str {
    match fault {
        ObjectFault::Truncated => "Truncated",
        ObjectFault::BadMagic => "BadMagic",
        ObjectFault::BadVersion => "BadVersion",
        ObjectFault::BadTable => "BadTable",
        ObjectFault::BadOpcode => "BadOpcode",
        ObjectFault::BadDestination => "BadDestination",
        ObjectFault::BadSlot => "BadSlot",
        ObjectFault::BadLiteral => "BadLiteral",
        ObjectFault::Trailing => "Trailing",
    }
}

/// Opens the bytes, takes the object apart, and writes its code again. Every object is written to the same bytes again.
pub fn outcome_of<A: Allocator + Clone>(alloc: A, bytes: &[u8]) -> io::Result<Outcome>
    ensures { IfOk result (λ o. o ≡ outcome (first_refusal bytes.now)) }
{
    let object = match Object::open(bytes) {
        Ok(object) => object,
        Err(fault) => return Ok(Outcome::Refused(fault)),
    };
    let code = object.to_code(alloc.clone()?)?;
    let mut written = Vec::new(alloc);
    write(&code, object.version(), &mut written)?;
    if written.as_slice() == bytes {
        Ok(Outcome::Same)
    } else {
        Ok(Outcome::Other)
    }
}
