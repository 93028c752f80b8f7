//! Object files as input.

ghost use Rattle.std.specs.Prelude.{◌≡◌};
ghost use Rattle.driver.specs.Disassembled.{Disassembles, DisassemblesWithLiterals, Draws, Upgrades};
ghost use Rattle.driver.specs.declared.objects.ObjectRefusal.TheVariants.{Object, Write};

use disassembler::{list, list_with_literals};
use dot::write_code_dot;
use object_view::{Object, ObjectFault, upgrade};
use std::io::{self, Write};

/// Why nothing, or only a part, was made of an object.
#[derive(Debug, Drop)]
pub enum ObjectRefusal {
    /// The bytes are not an object: this is their first fault. Nothing was written.
    Object(ObjectFault),
    /// A write failed. A beginning of the text was written.
    Write(io::Error),
}

impl From<ObjectFault> for ObjectRefusal {
    ghost from_gives = { λ fault reported. reported ≡ Object fault };

    fn from(fault: ObjectFault) -> ObjectRefusal {
        ObjectRefusal::Object(fault)
    }
}

impl From<io::Error> for ObjectRefusal {
    ghost from_gives = { λ fault reported. reported ≡ Write fault };

    fn from(fault: io::Error) -> ObjectRefusal {
        ObjectRefusal::Write(fault)
    }
}

/// Writes the listing of the object with these bytes.
pub fn disassemble<W: Write>(bytes: &[u8], writer: &mut W) -> Result<(), ObjectRefusal>
    ensures { Disassembles result (W.contents writer.old) (W.contents writer.new) bytes.now }
{
    let object = Object::open(bytes)?;
    Ok(list(&object, writer)?)
}

/// Writes the listing of the object with these bytes, and its table of literals.
pub fn disassemble_with_literals<W: Write>(
    bytes: &[u8],
    writer: &mut W,
) -> Result<(), ObjectRefusal>
    ensures { DisassemblesWithLiterals result (W.contents writer.old) (W.contents writer.new) bytes.now }
{
    let object = Object::open(bytes)?;
    Ok(list_with_literals(&object, writer)?)
}

/// Writes the picture of the code of the object with these bytes.
pub fn draw_object<W: Write>(bytes: &[u8], writer: &mut W) -> Result<(), ObjectRefusal>
    ensures { Draws result (W.contents writer.old) (W.contents writer.new) bytes.now }
{
    let object = Object::open(bytes)?;
    Ok(write_code_dot(&object, writer)?)
}

/// Writes the object with these bytes as version 2 of the object file: the same code, and no origin where version 1 has none.
pub fn upgrade_object<W: Write>(bytes: &[u8], writer: &mut W) -> Result<(), ObjectRefusal>
    ensures { Upgrades result (W.contents writer.old) (W.contents writer.new) bytes.now }
{
    let old = Object::open(bytes)?;
    Ok(upgrade(&old, writer)?)
}
