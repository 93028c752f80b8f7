//! The names of loops' blocks. A graph borrows its names, so these have an owner of their own.

ghost use Rattle.std.specs.Prelude.{◌≡◌, ◌++◌, IfOk, IfErr};
ghost use Rattle.source.specs.Lowered.{loop_name};
ghost use Rattle.source_check.specs.Stack.{out_of_memory};

use crate::names::name_of;
use graph::Name;
use itoa::Buffer;
use source::fault::{Fault, FaultKind};
use source::word::Word;
use source_check::Checked;
use std::alloc::{AllocError, Allocator};
use std::collections::VecDeque;

/// A growth was refused.
pub const OUT_OF_MEMORY: Fault = Fault {
    kind: FaultKind::Memory,
    at: 0,
};

/// The name of the block of a function's k-th loop.
#[derive(Drop)]
struct Owned<'a, A: Allocator> {
    function: &'a [u8],
    number: usize,
    bytes: Vec<u8, A>,
    ghost spelled: { bytes.items ≡ loop_name function.now number },
}

/// The same, borrowed.
#[derive(Drop)]
pub struct LoopName<'a> {
    pub function: &'a [u8],
    pub number: usize,
    pub bytes: &'a [u8],
    ghost spelled: { bytes.now ≡ loop_name function.now number },
}

/// A program that keeps the rules, with the names of its loops' blocks. A graph that it is lowered to borrows these.
#[derive(Drop)]
pub struct Named<'a, A: Allocator> {
    pub checked: Checked<'a, A>,
    /// In the order in which the turns of the loops begin.
    loops: Vec<Owned<'a, A>, A>,
}

/// The bytes of a loop's name.
fn spelling<A: Allocator + Clone>(
    alloc: &A,
    function: &[u8],
    number: usize,
) -> Result<Vec<u8, A>, AllocError>
    ensures { IfOk result (λ v. v.items ≡ loop_name function.now number) }
{
    let mut buffer = Buffer::new();
    let mut bytes = Vec::new(alloc.clone()?);
    bytes.extend_from_slice(function)?;
    bytes.extend_from_slice(b"__")?;
    bytes.extend_from_slice(buffer.format(number).as_bytes())?;
    Ok(bytes)
}

/// The names of all loops.
fn all_loops<'a, A: Allocator + Clone>(
    alloc: &A,
    names: &[Name<'a>],
    words: &[Word<usize>],
) -> Result<Vec<Owned<'a, A>, A>, AllocError> {
    let mut loops = Vec::new(alloc.clone()?);
    let mut function = b"".as_slice();
    let mut number = 0usize;
    for &word in words {
        match word {
            Word::Function { name, .. } => {
                function = name_of(names, name);
                number = 0;
            }
            Word::TestFirst | Word::BodyFirst => {
                number = number.wrapping_add(1);
                let bytes = spelling(alloc, function, number)?;
                loops.push(Owned {
                    function,
                    number,
                    bytes,
                })?;
            }
            _ => {}
        }
    }
    Ok(loops)
}

/// Gives the loops of a program that keeps the rules their names.
pub fn name_loops<'a, A: Allocator + Clone>(
    alloc: &A,
    checked: Checked<'a, A>,
) -> Result<Named<'a, A>, Fault>
    ensures same { IfOk result (λ n. n.checked ≡ checked.entry) }
    ensures refused { IfErr result (λ f. f ≡ out_of_memory) }
{
    match all_loops(alloc, &checked.program.names, &checked.program.words) {
        Ok(loops) => Ok(Named { checked, loops }),
        Err(_) => Err(OUT_OF_MEMORY),
    }
}

impl<'t, A: Allocator + Clone> Named<'t, A> {
    /// All names of loops, in order.
    pub(crate) fn loop_names<'a>(
        &'a self,
        alloc: &A,
    ) -> Result<VecDeque<LoopName<'a>, A>, AllocError> {
        let mut names = VecDeque::new(alloc.clone()?);
        for owned in &self.loops {
            names.push_back(LoopName {
                function: owned.function,
                number: owned.number,
                bytes: &owned.bytes,
            })?;
        }
        Ok(names)
    }
}

/// The name of the block of a function's k-th loop, which is the next in order. A growth is reported as refused if it is not.
pub fn next_loop_name<'a, A: Allocator>(
    loops: &mut VecDeque<LoopName<'a>, A>,
    function: &[u8],
    number: usize,
) -> Result<Name<'a>, AllocError>
    ensures { IfOk result (λ n. n ≡ loop_name function.now number) }
{
    match loops.pop_front() {
        Some(next) if next.number == number && next.function == function => {
            Ok(Name { bytes: next.bytes })
        }
        _ => Err(AllocError),
    }
}
