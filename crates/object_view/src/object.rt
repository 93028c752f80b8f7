//! Objects where they lie.

ghost use Rattle.std.specs.Prelude.{◌≡◌, ◌≢◌, ℕ, ◌+◌, ◌*◌, ◌<◌, ◌≤◌, ◌++◌, ◌↔◌, Ok, Err, Some, None, IfOk, IfErr, IfSome, IfNone, IsOk, MatchResult};
ghost use Rattle.std.specs.Prelude.{MatchOption, length, take, drop, slice_get, option_map};
ghost use Rattle.semantics.specs.Program.{Code, first_of, instr_at};
ghost use Rattle.semantics.specs.Bytes.{IsObject};
ghost use Rattle.object_view.specs.Unique.{ReadsBack, IsUnique, AllOpen};

use crate::fault::ObjectFault;
use crate::instr::{CodeInstr, PackedInstr};
use crate::tables::Tables;
use semantics::version::Version;
use std::marker::Model;

/// A code block of an object: the numbers of its inputs, outputs, slots and instructions, and the number of its first
/// instruction.
#[derive(Clone, Copy, Debug, PartialEq, Eq)]
pub struct BlockView {
    pub inputs: u32,
    pub outputs: u32,
    pub slots: u32,
    pub instrs: u32,
    pub first: u32,
}

/// An object that was opened. It lies where its bytes lie. Contracts see its version, its code and its bytes.
#[derive(Drop)]
pub struct Object<'a> {
    tables: Tables<'a>,
}

impl<'a> Model for Object<'a> {
    ghost use Rattle.std.specs.Prelude.{◌≡◌, Ok, ⊤};
    ghost use Rattle.object_view.specs.declared.fault.ObjectFault.{ObjectFault};
    ghost use Rattle.object_view.specs.Reading.{Opened, opened, AreBytes};
    ghost use Rattle.object_view.specs.Checks.{checked};

    ghost Value = { Opened };

    ghost view = { λ o. opened o.tables.bytes.now };

    ghost invariant = { λ o. (checked o.tables.bytes.now ≡ Ok tt) × AreBytes o.tables.bytes.now };
}

impl<'a> Object<'a> {
    ghost use Rattle.semantics.specs.Versions.{version_number};
    ghost use Rattle.object_view.specs.Reading.{opened, shown, unpacked, block_shown, instr_bytes};
    ghost use Rattle.object_view.specs.Checks.{checked, first_refusal};

    /// Opens the bytes where they lie, or says what is wrong with them first. Every object is opened, as the version and the
    /// code that it is. Takes time in proportion to their number.
    pub fn open(bytes: &'a [u8]) -> Result<Object<'a>, ObjectFault>
        ensures refused { MatchResult result
            (λ o. first_refusal bytes.now ≡ None)
            (λ e. first_refusal bytes.now ≡ Some e) }
        ensures opened { IfOk result (λ o. o ≡ opened bytes.now) }
        ensures object { IfOk result (λ o. IsObject bytes.now o.version o.code) }
        ensures complete { (version : ℕ) (c : Code) → IsObject bytes.now version c → MatchResult result
            (λ o. (o.version ≡ version) × (o.code ≡ c))
            (λ e. ⊥) }
    {
        let tables = match Tables::read(bytes) {
            Ok(tables) => tables,
            Err(fault) => return Err(fault),
        };
        if let Err(fault) = tables.check() {
            return Err(fault);
        }
        Ok(Object { tables })
    }

    /// The object that these bytes are, which were checked before. Takes time in proportion to the number of blocks.
    pub(crate) fn of_checked(bytes: &'a [u8]) -> Object<'a>
        requires { checked bytes.now ≡ Ok tt }
        ensures { result ≡ opened bytes.now }
    {
        match Tables::read(bytes) {
            Ok(tables) => Object { tables },
            Err(_) => unreachable!(),
        }
    }

    /// The bytes that it lies in.
    pub fn bytes(&self) -> &'a [u8]
        ensures same { result.now ≡ self.now.bytes }
        ensures opened { self.now ≡ opened result.now }
        ensures unrefused { first_refusal result.now ≡ None }
        ensures header { 48 ≤ length result.now }
        ensures object { IsObject result.now self.now.version self.now.code }
        ensures only { (version : ℕ) (c : Code) → IsObject result.now version c → (self.now.version ≡ version) × (self.now.code ≡ c) }
    {
        self.tables.bytes
    }

    pub fn version(&self) -> Version
        ensures { version_number result ≡ self.now.version }
    {
        self.tables.version
    }

    /// How many blocks it has.
    pub fn block_count(&self) -> u32
        ensures { result ≡ length self.now.code.program.blocks }
    {
        self.tables.blocks as u32
    }

    /// How many instructions all blocks have together.
    pub fn instr_count(&self) -> u32
        ensures { result ≡ first_of self.now.code.program (length self.now.code.program.blocks) }
    {
        self.instrs() as u32
    }

    /// The same, as it is compared with the number of an instruction that is run.
    #[inline(always)]
    pub fn instrs(&self) -> usize
        ensures exact { result ≡ first_of self.now.code.program (length self.now.code.program.blocks) }
        ensures few { result ≤ 16777216 }
    {
        self.tables.instrs
    }

    /// How many literals it has.
    pub fn literal_count(&self) -> u32
        ensures { result ≡ length self.now.code.literals }
    {
        self.tables.literals as u32
    }

    /// How many arrays it has.
    pub fn array_count(&self) -> u32
        ensures { result ≡ length self.now.code.program.arrays }
    {
        self.tables.arrays as u32
    }

    /// The number of the block that is run.
    pub fn main(&self) -> u32
        ensures { result ≡ self.now.code.program.main }
    {
        self.tables.main as u32
    }

    /// The number of a block's first instruction. Takes time in proportion to the number of blocks.
    pub fn entry(&self, block: u32) -> Option<u32>
        ensures { result ≡ option_map (λ b. first_of self.now.code.program block) (slice_get self.now.code.program.blocks block) }
    {
        if block as usize >= self.tables.blocks {
            return None;
        }
        Some(self.tables.first_of(block as usize) as u32)
    }

    /// A block. Takes time in proportion to the number of blocks.
    pub fn block(&self, block: u32) -> Option<BlockView>
        ensures { result ≡ option_map (block_shown (first_of self.now.code.program block)) (slice_get self.now.code.program.blocks block) }
    {
        if block as usize >= self.tables.blocks {
            return None;
        }
        let entry = self.tables.entry(block as usize);
        Some(BlockView {
            inputs: entry.inputs(),
            outputs: entry.outputs(),
            slots: entry.slots(),
            instrs: entry.instrs(),
            first: self.tables.first_of(block as usize) as u32,
        })
    }

    /// The 16 bytes of an instruction.
    pub fn word(&self, ip: u32) -> Option<&'a [u8]>
        ensures { option_map (λ bytes. bytes.now) result ≡ option_map (instr_bytes self.now.code.literals) (instr_at self.now.code.program ip) }
    {
        if ip as usize >= self.tables.instrs {
            return None;
        }
        Some(self.tables.instr_bytes(ip as usize))
    }

    /// An instruction, with its destinations and its origin as they are there.
    #[inline(always)]
    pub fn packed(&self, ip: u32) -> Option<PackedInstr>
        ensures { option_map (λ i. shown (unpacked i)) result ≡ instr_at self.now.code.program ip }
    {
        if ip as usize >= self.tables.instrs {
            return None;
        }
        Some(self.tables.packed(ip as usize))
    }

    /// An instruction.
    pub fn instr(&self, ip: u32) -> Option<CodeInstr>
        ensures { option_map shown result ≡ instr_at self.now.code.program ip }
    {
        if ip as usize >= self.tables.instrs {
            return None;
        }
        Some(self.tables.instr(ip as usize))
    }

    /// A literal.
    pub fn literal(&self, number: u32) -> Option<i64>
        ensures { result ≡ slice_get self.now.code.literals number }
    {
        if number as usize >= self.tables.literals {
            return None;
        }
        Some(self.tables.literal(number as usize))
    }

    /// The length of an array.
    pub fn array(&self, number: u32) -> Option<u64>
        ensures { result ≡ slice_get self.now.code.program.arrays number }
    {
        if number as usize >= self.tables.arrays {
            return None;
        }
        Some(self.tables.array(number as usize))
    }
}

/// The bytes of an object determine one version and one code, and these are what is read from them. No object is refused.
#[tactic(auto, using(crate::proofs::Unique::read_back, crate::proofs::Unique::unique, crate::proofs::Unique::all_open))]
pub fn one_spelling()
    ensures read_back { ReadsBack }
    ensures unique { IsUnique }
    ensures complete { AllOpen }
{}
