//! The lines of all instructions.

ghost use Rattle.std.specs.Prelude.{◌≡◌, take, drop};
ghost use Rattle.semantics.specs.Graph.{block_names};
ghost use Rattle.sink.specs.Sends.{Sends};
ghost use Rattle.source_tokens.specs.Placing.{IsReached};
ghost use Rattle.map_text.specs.MapText as MapText;

use crate::line::send_line;
use crate::placing::{ProgramPlaces, blocks_of, name_at, owner_place};
use code_map::Owner;
use graph::{Block, Graph};
use lowering::Places;
use object_view::{BlockView, Object};
use source_tokens::{Reached, first_place, reach};
use std::alloc::Allocator;
use std::io::{self, Write};
use std::marker::Model;

/// What the lines name.
#[derive(Drop)]
struct Names<'g, 'a, 'p, 'q, A: Allocator> {
    blocks: &'g [Block<'a, A>],
    program: &'p [u8],
    places: &'q [Places<A>],
}

impl<'g, 'a, 'p, 'q, A: Allocator> Model for Names<'g, 'a, 'p, 'q, A> {
    ghost use Rattle.std.specs.Prelude.{map};
    ghost use Rattle.map_text.specs.MapText as MapText;

    ghost Value = { MapText.Names };

    ghost view = { λ n. record { blocks = map (λ b. b.0) n.blocks.now; program = n.program.now; places = n.places.now } };
}

/// The line of an instruction. Its place in the program is near that of the instruction before, and looked for from there.
fn send_instr<'g, 'a, 'p, 'q, A: Allocator, W: Write>(
    writer: &mut W,
    names: &Names<'g, 'a, 'p, 'q, A>,
    last: &mut Reached,
    code: u32,
    instr: usize,
    owner: Owner,
) -> io::Result<()>
    requires { IsReached names.now.program last.old }
    ensures line { Sends result (W.contents writer.old) (W.contents writer.new) (MapText.code_line names.now code instr owner) }
    ensures reached { IsReached names.now.program last.new }
{
    let name = name_at(names.blocks, owner.block);
    let place = match owner_place(names.places, owner) {
        Some(at) => {
            let place = reach(names.program, *last, at);
            *last = place;
            Some(place)
        }
        None => None,
    };
    send_line(writer, code, instr, name, owner, place)
}

/// The lines of a code block, whose instructions have these owners.
fn send_block<'g, 'a, 'p, 'q, A: Allocator, W: Write>(
    writer: &mut W,
    names: &Names<'g, 'a, 'p, 'q, A>,
    last: &mut Reached,
    code: u32,
    owners: &[Owner],
) -> io::Result<()>
    requires { IsReached names.now.program last.old }
    ensures lines { Sends result (W.contents writer.old) (W.contents writer.new) (MapText.block_lines names.now code owners.now) }
    ensures reached { IsReached names.now.program last.new }
{
    for (instr, owner) in owners.iter().enumerate() {
        send_instr(writer, names, last, code, instr, *owner)?;
    }
    Ok(())
}

/// The owners of a block's instructions, of those of all instructions.
fn owners_in<'o>(owners: &'o [Owner], block: &BlockView) -> &'o [Owner]
    ensures { result.now ≡ take block.now.instrs (drop block.now.first owners.now) }
{
    let first = owners.len().min(block.first as usize);
    let rest = &owners[first..];
    let count = rest.len().min(block.instrs as usize);
    &rest[..count]
}

/// The lines of all code blocks.
fn send_blocks<'g, 'a, 'p, 'q, A: Allocator, W: Write>(
    writer: &mut W,
    names: &Names<'g, 'a, 'p, 'q, A>,
    object: &Object<'_>,
    owners: &[Owner],
) -> io::Result<()>
    ensures { Sends result (W.contents writer.old) (W.contents writer.new) (MapText.code_lines names.now object.now.code.program owners.now) }
{
    let mut last = first_place();
    for code in 0..object.block_count() {
        let Some(block) = object.block(code) else {
            return Ok(());
        };
        send_block(writer, names, &mut last, code, owners_in(owners, &block))?;
    }
    Ok(())
}

/// Writes the map of an object: for each instruction, in order, a line with its owner, of which `owners` has one for each; and with
/// the place of the owner's node in the program, where the graph was made of a program. The writer is called until it has taken all
/// of it; a call that takes no byte is a fault. After an `Err` a beginning of the text was written. Takes no memory.
pub fn write_code_map<'a, A: Allocator, W: Write>(
    writer: &mut W,
    object: &Object<'_>,
    graph: &Graph<'a, A>,
    owners: &[Owner],
    program: Option<ProgramPlaces<'_, '_, A>>,
) -> io::Result<()>
    ensures { Sends result (W.contents writer.old) (W.contents writer.new)
        (MapText.code_map_text object.now.code.program (block_names graph.now) program.entry owners.now) }
{
    let names = match program {
        Some(program) => Names {
            blocks: blocks_of(graph),
            program: program.program,
            places: program.places,
        },
        None => Names {
            blocks: blocks_of(graph),
            program: &[],
            places: &[],
        },
    };
    send_blocks(writer, &names, object, owners)
}
