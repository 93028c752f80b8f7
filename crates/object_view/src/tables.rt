//! An object whose header, block table and length were looked at: its parts can be read by their numbers.

ghost use Rattle.std.specs.Prelude.{◌≡◌, ◌+◌, ◌*◌, ◌<◌, ◌≤◌, ◌^◌, length, take, drop, Ok, Err, IfOk, IfErr, IsSome};
ghost use Rattle.object_view.specs.Fields as Fields;
ghost use Rattle.semantics.specs.Opcodes as Opcodes;
ghost use Rattle.object_view.specs.Reading as Reading;

use crate::instr::{CodeInstr, PackedInstr};
use crate::words::{self, Entry, Head};
use semantics::opcode::Opcode;
use semantics::program::Op;
use semantics::version::Version;

/// How many words the header has.
pub const HEADER: usize = 6;

/// The bytes of an object, with the numbers that its tables give.
#[derive(Clone, Copy, Debug)]
pub struct Tables<'a> {
    pub bytes: &'a [u8],
    /// The bytes from the first instruction on.
    pub code: &'a [u8],
    pub version: Version,
    pub blocks: usize,
    pub instrs: usize,
    pub literals: usize,
    pub arrays: usize,
    /// The number of the block that is run.
    pub main: usize,
    ghost version_parsed: { version ≡ Reading.version_in (Fields.word_at bytes.now 1) },
    ghost blocks_parsed: { blocks ≡ Fields.word_at bytes.now 2 },
    ghost literals_parsed: { literals ≡ Fields.word_at bytes.now 3 },
    ghost arrays_parsed: { arrays ≡ Fields.word_at bytes.now 4 },
    ghost main_parsed: { main ≡ Fields.word_at bytes.now 5 },
    ghost code_follows: { code.now ≡ drop (8 * (6 + blocks)) bytes.now },
    ghost instrs_parsed: { instrs ≡ Reading.instr_count (Fields.word_at bytes.now) },
    ghost whole: { length bytes.now ≡ 8 * (6 + blocks + 2 * instrs + literals + arrays) },
    ghost main_there: { main < blocks },
    ghost few_blocks: { blocks ≤ 512 },
    ghost few_instrs: { instrs ≤ 16777216 },
    ghost few_literals: { literals ≤ 65536 },
    ghost few_arrays: { arrays ≤ 64 },
}

impl<'a> Tables<'a> {
    /// A block's entry in the block table.
    pub fn entry(&self, block: usize) -> Entry
        requires { block < self.now.blocks }
        ensures { result.word ≡ Fields.word_at self.now.bytes.now (6 + block) }
    {
        Entry {
            word: words::word_at(self.bytes, HEADER + block),
        }
    }

    /// The first word of an instruction.
    #[inline(always)]
    pub fn head(&self, ip: usize) -> Head
        requires { ip < self.now.instrs }
        ensures { result.word ≡ Fields.word_at self.now.bytes.now (Reading.instr_place (Fields.word_at self.now.bytes.now) ip) }
    {
        Head {
            word: words::word_at(self.code, 2 * ip),
        }
    }

    /// The second word of an instruction.
    #[inline(always)]
    pub fn operand_word(&self, ip: usize) -> u64
        requires { ip < self.now.instrs }
        ensures { result ≡ Fields.word_at self.now.bytes.now (Reading.instr_place (Fields.word_at self.now.bytes.now) ip + 1) }
    {
        words::word_at(self.code, 2 * ip + 1)
    }

    #[inline(always)]
    pub fn literal(&self, number: usize) -> i64
        requires { number < self.now.literals }
        ensures { result ≡ Reading.literal_in (Fields.word_at self.now.bytes.now) number }
    {
        words::word_at(self.bytes, HEADER + self.blocks + 2 * self.instrs + number).cast_signed()
    }

    pub fn array(&self, number: usize) -> u64
        requires { number < self.now.arrays }
        ensures { result ≡ Reading.array_in (Fields.word_at self.now.bytes.now) number }
    {
        words::word_at(
            self.bytes,
            HEADER + self.blocks + 2 * self.instrs + self.literals + number,
        )
    }

    #[inline(always)]
    fn has_origin(&self, opcode: Opcode) -> bool
        ensures { result ≡ Fields.has_origin self.now.version opcode }
    {
        match self.version {
            Version::One => false,
            Version::Two => opcode.may_fault(),
        }
    }

    /// The operand of an instruction with this opcode and this second word.
    pub fn operand(&self, opcode: Opcode, word: u64) -> u64
        ensures { result ≡ Fields.operand_in self.now.version opcode word }
    {
        if self.has_origin(opcode) {
            word % 0x1_0000_0000
        } else {
            word
        }
    }

    /// The number of the origin of an instruction with this opcode and this second word.
    pub fn origin(&self, opcode: Opcode, word: u64) -> u64
        ensures { result ≡ Fields.origin_number self.now.version opcode word }
    {
        if self.has_origin(opcode) {
            word / 0x1_0000_0000
        } else {
            0
        }
    }

    #[inline(always)]
    fn literal_or_zero(&self, number: u64) -> i64
        ensures { result ≡ Reading.literal_or_zero (Fields.word_at self.now.bytes.now) number }
    {
        if number < self.literals as u64 {
            self.literal(number as usize)
        } else {
            0
        }
    }

    /// The operand and the number of the origin of an instruction with this opcode and this second word.
    #[inline(always)]
    fn parted(&self, opcode: Opcode, word: u64) -> (u64, u64)
        ensures operand { result.0 ≡ Fields.operand_in self.now.version opcode word }
        ensures origin { result.1 ≡ Fields.origin_number self.now.version opcode word }
    {
        if self.has_origin(opcode) {
            (word % 0x1_0000_0000, word / 0x1_0000_0000)
        } else {
            (word, 0)
        }
    }

    /// The operation of an instruction with this opcode, and the number of its origin. The second word is read where it is
    /// needed, and the table of literals where the operand is a literal. Each opcode has its own path to the end, so that no
    /// second choice is made where the operation is looked at next.
    #[inline(always)]
    fn read_op(&self, opcode: Opcode, ip: usize) -> (Op, u64)
        requires { ip < self.now.instrs }
        ensures op { let word = Fields.word_at self.now.bytes.now (Reading.instr_place (Fields.word_at self.now.bytes.now) ip + 1) in result.0
            ≡ Opcodes.with opcode (Fields.operand_in self.now.version opcode word) (Reading.literal_or_zero (Fields.word_at self.now.bytes.now)
            (Fields.operand_in self.now.version opcode word)) }
        ensures origin { result.1 ≡ Fields.origin_number self.now.version opcode
            (Fields.word_at self.now.bytes.now (Reading.instr_place (Fields.word_at self.now.bytes.now) ip + 1)) }
    {
        match opcode {
            Opcode::Apply2 { op } => {
                let (_, origin) = self.parted(opcode, self.operand_word(ip));
                (Op::Apply2 { op }, origin)
            }
            Opcode::Apply2Right { op } => {
                let (operand, origin) = self.parted(opcode, self.operand_word(ip));
                let literal = self.literal_or_zero(operand);
                (Op::Apply2Right { op, literal }, origin)
            }
            Opcode::Apply2Left { op } => {
                let (operand, origin) = self.parted(opcode, self.operand_word(ip));
                let literal = self.literal_or_zero(operand);
                (Op::Apply2Left { op, literal }, origin)
            }
            Opcode::Lit => {
                let literal = self.literal_or_zero(self.operand_word(ip));
                (Op::Lit { literal }, 0)
            }
            Opcode::Fetch | Opcode::Store => {
                let (operand, origin) = self.parted(opcode, self.operand_word(ip));
                (opcode.with(operand, 0), origin)
            }
            _ => (opcode.with(self.operand_word(ip), 0), 0),
        }
    }

    #[tactic(auto, unfolding(crate::specs::Reading::instr_in))]
    /// An instruction whose opcode exists, as in each object that was checked, with its destinations and its origin as they are
    /// there.
    #[inline(always)]
    pub fn packed(&self, ip: usize) -> PackedInstr
        requires there { ip < self.now.instrs }
        requires opcode { IsSome (Fields.opcode_in (Fields.word_at self.now.bytes.now (Reading.instr_place (Fields.word_at self.now.bytes.now) ip))) }
        ensures { Reading.unpacked result ≡ Reading.instr_in (Fields.word_at self.now.bytes.now) ip }
    {
        let head = self.head(ip);
        let (op, origin) = self.read_op(head.known_opcode(), ip);
        PackedInstr {
            origin,
            bits: head.word / 65_536,
            op,
        }
    }

    /// An instruction whose opcode exists.
    pub fn instr(&self, ip: usize) -> CodeInstr
        requires there { ip < self.now.instrs }
        requires opcode { IsSome (Fields.opcode_in (Fields.word_at self.now.bytes.now (Reading.instr_place (Fields.word_at self.now.bytes.now) ip))) }
        ensures { result ≡ Reading.instr_in (Fields.word_at self.now.bytes.now) ip }
    {
        self.packed(ip).unpacked()
    }

    /// The number of a block's first instruction; of the number of blocks, the number of all instructions.
    pub fn first_of(&self, block: usize) -> usize
        requires { block ≤ self.now.blocks }
        ensures counted { result ≡ Reading.instrs_below (Fields.word_at self.now.bytes.now) block }
        ensures few { result ≤ self.now.instrs }
    {
        let mut first = 0;
        for earlier in 0..block {
            first += self.entry(earlier).instrs() as usize;
        }
        first
    }

    /// The bytes of an instruction.
    pub fn instr_bytes(&self, ip: usize) -> &'a [u8]
        requires { ip < self.now.instrs }
        ensures { result.now ≡ take 16 (drop (8 * Reading.instr_place (Fields.word_at self.now.bytes.now) ip) self.now.bytes.now) }
    {
        let start = 8 * (HEADER + self.blocks + 2 * ip);
        &self.bytes[start..start + 16]
    }
}
