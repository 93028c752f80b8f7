//! The checks of an object, in their order.

ghost use Rattle.std.specs.Prelude.{◌≡◌, ◌+◌, ◌*◌, ◌<◌, ◌≤◌, ◌^◌, length, true, option_map, Ok, Err, MatchResult, IfOk, OnOk};
ghost use Rattle.object_view.specs.Fields as Fields;
ghost use Rattle.object_view.specs.Reading as Reading;
ghost use Rattle.object_view.specs.Checks as Checks;
ghost use Rattle.object_view.specs.Flaws.{fault_of};

use crate::fault::{Flaw, ObjectFault, Place, Wrong};
use crate::tables::{HEADER, Tables};
use crate::words::{self, Entry, Head};
use semantics::opcode::Opcode;
use semantics::version::Version;

/// The bytes `ETSOBJCT` as a word.
const MAGIC: u64 = 0x5443_4a42_4f53_5445;

impl Flaw {
    fn of(fault: ObjectFault, place: Place, wrong: Wrong) -> Flaw
        ensures { result.fault ≡ fault }
    {
        Flaw {
            fault,
            place,
            wrong,
        }
    }

    /// The same fault at this place.
    fn at(self, place: Place) -> Flaw
        ensures { result.fault ≡ self.fault }
    {
        Flaw::of(self.fault, place, self.wrong)
    }
}

fn unless(fits: bool, fault: ObjectFault, place: Place, wrong: Wrong) -> Result<(), Flaw>
    ensures { fault_of result ≡ Checks.unless fits fault }
{
    if fits {
        Ok(())
    } else {
        Err(Flaw {
            fault,
            place,
            wrong,
        })
    }
}

/// The place of the word with this number.
fn word(number: usize) -> Place {
    Place::Word(number as u64)
}

/// A number of things that is not from the least to the most.
fn outside(what: &'static str, count: u64, least: u64, most: u64) -> Option<Wrong> {
    let fits = least <= count && count <= most;
    let wrong = Wrong::Count {
        what,
        count,
        least,
        most,
    };
    if fits { None } else { Some(wrong) }
}

fn counts_fit(bytes: &[u8]) -> bool
    requires { 48 ≤ length bytes.now }
    ensures { result ≡ Checks.counts_fit (Fields.word_at bytes.now) }
{
    let blocks = words::word_at(bytes, 2);
    1 <= blocks
        && blocks <= 512
        && words::word_at(bytes, 3) <= 65_536
        && words::word_at(bytes, 4) <= 64
        && words::word_at(bytes, 5) < blocks
}

/// The first word of the header with a count that does not fit, and what is wrong with it; else that of the block that is run.
fn wrong_count(bytes: &[u8]) -> (Place, Wrong)
    requires { 48 ≤ length bytes.now }
{
    let blocks = words::word_at(bytes, 2);
    if let Some(wrong) = outside("code blocks", blocks, 1, 512) {
        return (word(2), wrong);
    }
    if let Some(wrong) = outside("literals", words::word_at(bytes, 3), 0, 65_536) {
        return (word(3), wrong);
    }
    if let Some(wrong) = outside("arrays", words::word_at(bytes, 4), 0, 64) {
        return (word(4), wrong);
    }
    let wrong = Wrong::Absent {
        noun: "code block",
        number: words::word_at(bytes, 5),
        count: blocks,
    };
    (word(5), wrong)
}

fn check_header(bytes: &[u8]) -> Result<(), Flaw>
    requires { 48 ≤ length bytes.now }
    ensures checked { fault_of result ≡ Checks.header_checked (Fields.word_at bytes.now) }
    ensures fit { OnOk result (Checks.counts_fit (Fields.word_at bytes.now) ≡ true) }
{
    if words::word_at(bytes, 0) != MAGIC {
        return Err(Flaw::of(ObjectFault::BadMagic, word(0), Wrong::Magic));
    }
    let version = words::word_at(bytes, 1);
    if version == 1 || version == 2 {
        let (place, wrong) = wrong_count(bytes);
        unless(counts_fit(bytes), ObjectFault::BadTable, place, wrong)
    } else {
        let wrong = Wrong::Version { version };
        Err(Flaw::of(ObjectFault::BadVersion, word(1), wrong))
    }
}

impl Entry {
    fn fits(self) -> bool
        ensures { result ≡ Checks.entry_fits self.word }
    {
        1 <= self.inputs()
            && self.inputs() <= 16
            && 1 <= self.outputs()
            && self.outputs() <= 16
            && self.inputs() + 1 <= self.instrs()
            && self.instrs() <= 32_768
            && self.slots() <= 512
    }

    /// What is wrong with the first of its numbers that does not fit; else with its slots.
    fn wrong(self) -> Wrong {
        let inputs = u64::from(self.inputs());
        let outputs = u64::from(self.outputs());
        let instrs = u64::from(self.instrs());
        outside("inputs of a code block", inputs, 1, 16)
            .or(outside("outputs of a code block", outputs, 1, 16))
            .or(outside("instructions of a code block", instrs, inputs + 1, 32_768))
            .unwrap_or(Wrong::Count {
                what: "slots of a code block",
                count: u64::from(self.slots()),
                least: 0,
                most: 512,
            })
    }
}

fn version_of(number: u64) -> Version
    ensures { result ≡ Reading.version_in number }
{
    if number == 2 {
        Version::Two
    } else {
        Version::One
    }
}

fn entry_at(bytes: &[u8], block: usize) -> Entry
    requires { 8 * (6 + block) + 8 ≤ length bytes.now }
    ensures { result.word ≡ Fields.word_at bytes.now (6 + block) }
{
    Entry {
        word: words::word_at(bytes, HEADER + block),
    }
}

/// Looks at the block table, and returns the number of all instructions.
fn check_entries(bytes: &[u8], blocks: usize) -> Result<usize, Flaw>
    requires few { blocks ≤ 512 }
    requires there { 8 * (6 + blocks) ≤ length bytes.now }
    ensures checked { MatchResult result
        (λ n. Checks.each (Checks.entry_checked (Fields.word_at bytes.now)) 0 blocks ≡ Ok tt)
        (λ e. Checks.each (Checks.entry_checked (Fields.word_at bytes.now)) 0 blocks ≡ Err e.fault) }
    ensures counted { IfOk result (λ n. n ≡ Reading.instrs_below (Fields.word_at bytes.now) blocks) }
    ensures few { IfOk result (λ n. n ≤ 32768 * blocks) }
{
    let mut instrs = 0;
    for block in 0..blocks {
        let entry = entry_at(bytes, block);
        let place = word(HEADER + block);
        if let Err(flaw) = unless(entry.fits(), ObjectFault::BadTable, place, entry.wrong()) {
            return Err(flaw);
        }
        instrs += entry.instrs() as usize;
    }
    Ok(instrs)
}

/// The fault of bytes that end in the header or in the block table, which take this many.
fn ends_early(wants: usize) -> Flaw
    ensures { result.fault ≡ ObjectFault.Truncated }
{
    let wants = wants as u64;
    Flaw::of(
        ObjectFault::Truncated,
        Place::Length,
        Wrong::Header { wants },
    )
}

fn check_length(bytes: &[u8], blocks: usize, instrs: usize) -> Result<(), Flaw>
    requires header { 48 ≤ length bytes.now }
    requires few { instrs ≤ 16777216 }
    requires blocks { blocks ≡ Fields.word_at bytes.now 2 }
    requires instrs { instrs ≡ Reading.instr_count (Fields.word_at bytes.now) }
    requires fit { Checks.counts_fit (Fields.word_at bytes.now) ≡ true }
    ensures checked { fault_of result ≡ Checks.length_checked (length bytes.now) (Fields.word_at bytes.now) }
    ensures whole { OnOk result (length bytes.now ≡ 8 * Reading.word_count (Fields.word_at bytes.now)) }
{
    let literals = words::word_at(bytes, 3) as usize;
    let arrays = words::word_at(bytes, 4) as usize;
    let whole = 8 * (HEADER + blocks + 2 * instrs + literals + arrays);
    let wants = whole as u64;
    let wrong = Wrong::Length { wants };
    if bytes.len() < whole {
        Err(Flaw::of(ObjectFault::Truncated, Place::Length, wrong))
    } else if whole < bytes.len() {
        Err(Flaw::of(ObjectFault::Trailing, Place::Length, wrong))
    } else {
        Ok(())
    }
}

impl<'a> Tables<'a> {
    /// Looks at the header, the block table and the length.
    fn find(bytes: &'a [u8]) -> Result<Tables<'a>, Flaw>
        ensures same { IfOk result (λ t. t.bytes.now ≡ bytes.now) }
        ensures checked { MatchResult result
            (λ t. Checks.opening_checked (length bytes.now) (Fields.word_at bytes.now) ≡ Ok tt)
            (λ e. Checks.opening_checked (length bytes.now) (Fields.word_at bytes.now) ≡ Err e.fault) }
    {
        if bytes.len() < 48 {
            return Err(ends_early(48));
        }
        if let Err(flaw) = check_header(bytes) {
            return Err(flaw);
        }
        let blocks = words::word_at(bytes, 2) as usize;
        if bytes.len() < 8 * (HEADER + blocks) {
            return Err(ends_early(8 * (HEADER + blocks)));
        }
        let instrs = match check_entries(bytes, blocks) {
            Ok(instrs) => instrs,
            Err(flaw) => return Err(flaw),
        };
        if let Err(flaw) = check_length(bytes, blocks, instrs) {
            return Err(flaw);
        }
        Ok(Tables {
            bytes,
            code: &bytes[8 * (HEADER + blocks)..],
            version: version_of(words::word_at(bytes, 1)),
            blocks,
            instrs,
            literals: words::word_at(bytes, 3) as usize,
            arrays: words::word_at(bytes, 4) as usize,
            main: words::word_at(bytes, 5) as usize,
        })
    }

    /// Looks at the header, the block table and the length.
    pub fn read(bytes: &'a [u8]) -> Result<Tables<'a>, ObjectFault>
        ensures same { IfOk result (λ t. t.bytes.now ≡ bytes.now) }
        ensures checked { MatchResult result
            (λ t. Checks.opening_checked (length bytes.now) (Fields.word_at bytes.now) ≡ Ok tt)
            (λ e. Checks.opening_checked (length bytes.now) (Fields.word_at bytes.now) ≡ Err e) }
    {
        match Tables::find(bytes) {
            Ok(tables) => Ok(tables),
            Err(flaw) => Err(flaw.fault),
        }
    }

    /// The place of the word that is this many words after the instructions.
    fn after_instrs(&self, number: u64) -> Place {
        let start = (HEADER + self.blocks + 2 * self.instrs) as u64;
        Place::Word(start.saturating_add(number))
    }

    fn check_array(&self, number: usize) -> Result<(), Flaw>
        requires { number < self.now.arrays }
        ensures checked { fault_of result ≡ Checks.array_checked (Fields.word_at self.now.bytes.now) number }
        ensures few { OnOk result (Reading.array_in (Fields.word_at self.now.bytes.now) number ≤ 65536) }
    {
        let len = self.array(number);
        let place = self.after_instrs((self.literals + number) as u64);
        let wrong = Wrong::Count {
            what: "cells of an array",
            count: len,
            least: 1,
            most: 65_536,
        };
        unless(
            1 <= len && len <= 65_536,
            ObjectFault::BadTable,
            place,
            wrong,
        )
    }

    /// Whether a literal is below the next one.
    fn check_literal(&self, number: usize) -> Result<(), Flaw>
        requires { number + 1 < self.now.literals }
        ensures { fault_of result ≡ Checks.literal_checked (Fields.word_at self.now.bytes.now) number }
    {
        unless(
            self.literal(number) < self.literal(number + 1),
            ObjectFault::BadLiteral,
            self.after_instrs(number as u64 + 1),
            Wrong::LiteralOrder,
        )
    }

    fn check_arrays(&self) -> Result<(), Flaw>
        ensures { fault_of result ≡ Checks.arrays_checked (Fields.word_at self.now.bytes.now) }
    {
        let mut cells = 0;
        for number in 0..self.arrays {
            if let Err(flaw) = self.check_array(number) {
                return Err(flaw);
            }
            cells += self.array(number);
        }
        let last = (self.literals + self.arrays) as u64;
        let place = self.after_instrs(last.saturating_sub(1));
        let wrong = Wrong::Count {
            what: "cells of all arrays",
            count: cells,
            least: 1,
            most: 65_536,
        };
        unless(cells <= 65_536, ObjectFault::BadTable, place, wrong)
    }

    fn check_literals(&self) -> Result<(), Flaw>
        ensures { fault_of result ≡ Checks.literals_checked (Fields.word_at self.now.bytes.now) }
    {
        let pairs = self.literals.saturating_sub(1);
        for number in 0..pairs {
            if let Err(flaw) = self.check_literal(number) {
                return Err(flaw);
            }
        }
        Ok(())
    }

    fn operand_fits(&self, opcode: Opcode, word: u64) -> bool
        ensures { result ≡ Checks.operand_fits self.now.version opcode word }
    {
        let operand = self.operand(opcode, word);
        match self.version {
            Version::One => opcode.may_have(operand),
            Version::Two => {
                self.origin(opcode, word) <= 262_144
                    && operand < 0x1_0000_0000
                    && opcode.may_have(operand)
            }
        }
    }

    /// What is wrong with an operand that does not fit, or with its origin.
    fn operand_wrong(&self, opcode: Opcode, head: Head, word: u64) -> Wrong {
        let operand = self.operand(opcode, word);
        if operand < 0x1_0000_0000 && opcode.may_have(operand) {
            return Wrong::Count {
                what: "the origin",
                count: self.origin(opcode, word),
                least: 0,
                most: 262_144,
            };
        }
        let code = head.code();
        Wrong::Operand { operand, code }
    }

    /// Whether a right port may lead to this instruction.
    fn may_take_right(&self, ip: usize) -> bool
        requires { ip < self.now.instrs }
        ensures { result ≡ Checks.may_take_right
            (Fields.opcode_in (Fields.word_at self.now.bytes.now (Reading.instr_place (Fields.word_at self.now.bytes.now) ip))) }
    {
        match self.head(ip).opcode() {
            Some(opcode) => opcode.takes_two(),
            None => true,
        }
    }

    /// Whether a half word is no destination or one in the block, which ends before the instruction `end`.
    fn dest_fits(&self, end: usize, ip: usize, half: u32) -> bool
        requires below { ip < end }
        requires there { end ≤ self.now.instrs }
        ensures { result ≡ Checks.dest_fits (Fields.word_at self.now.bytes.now) end ip half }
    {
        let ahead = half % 32_768;
        if ahead == 0 {
            return half == 0;
        }
        let to = ip + ahead as usize;
        to < end && (half / 32_768 == 0 || self.may_take_right(to))
    }

    fn dests_fit(&self, end: usize, ip: usize, opcode: Opcode, head: Head) -> bool
        requires below { ip < end }
        requires there { end ≤ self.now.instrs }
        ensures { result ≡ Checks.dests_fit (Fields.word_at self.now.bytes.now) end ip opcode head.word }
    {
        self.dest_fits(end, ip, head.first())
            && self.dest_fits(end, ip, head.second())
            && opcode.may_go_to(words::dest_of(head.first()), words::dest_of(head.second()))
    }

    /// What is wrong with a half word, if something is.
    fn dest_wrong(&self, end: usize, ip: usize, half: u32) -> Option<Wrong>
        requires below { ip < end }
        requires there { end ≤ self.now.instrs }
    {
        if self.dest_fits(end, ip, half) {
            return None;
        }
        let ahead = u64::from(half % 32_768);
        Some(if ahead == 0 {
            Wrong::Distance
        } else if ahead >= (end - ip) as u64 {
            Wrong::PastEnd { ahead }
        } else {
            Wrong::RightPort { ahead }
        })
    }

    /// What is wrong with destinations that do not fit.
    fn dests_wrong(&self, end: usize, ip: usize, head: Head) -> Wrong
        requires below { ip < end }
        requires there { end ≤ self.now.instrs }
    {
        let code = head.code();
        self.dest_wrong(end, ip, head.first())
            .or(self.dest_wrong(end, ip, head.second()))
            .unwrap_or(Wrong::Destinations { code })
    }

    /// Whether the block, the entry or the offset that an instruction names exists.
    fn target_fits(&self, opcode: Opcode, operand: u64) -> bool
        ensures { result ≡ Checks.target_fits (Fields.word_at self.now.bytes.now) opcode operand }
    {
        match opcode {
            Opcode::Link => operand < self.blocks as u64,
            Opcode::Send => {
                let block = operand / 65_536;
                block < self.blocks as u64
                    && operand % 65_536 <= u64::from(self.entry(block as usize).inputs())
            }
            Opcode::Return | Opcode::Ask | Opcode::Release => operand <= 255,
            _ => true,
        }
    }

    /// Whether the literal or the array that an instruction names exists.
    fn check_number(&self, opcode: Opcode, operand: u64) -> Result<(), Flaw>
        ensures { fault_of result ≡ Checks.number_checked (Fields.word_at self.now.bytes.now) opcode operand }
    {
        match opcode {
            Opcode::Apply2Right { .. } | Opcode::Apply2Left { .. } | Opcode::Lit => {
                let count = self.literals as u64;
                let wrong = absent("literal", operand, count);
                let bad = ObjectFault::BadLiteral;
                unless(operand < count, bad, Place::Length, wrong)
            }
            Opcode::Fetch | Opcode::Store => {
                let count = self.arrays as u64;
                let wrong = absent("array", operand, count);
                let bad = ObjectFault::BadTable;
                unless(operand < count, bad, Place::Length, wrong)
            }
            _ => Ok(()),
        }
    }

    /// Looks at an instruction of a block that ends before the instruction `end` and has `slots` slots.
    #[tactic(auto, unfolding(crate::specs::Checks::instr_checked))]
    fn check_instr(&self, slots: u32, end: usize, ip: usize) -> Result<(), Flaw>
        requires below { ip < end }
        requires there { end ≤ self.now.instrs }
        ensures { fault_of result ≡ Checks.instr_checked (Fields.word_at self.now.bytes.now) slots end ip }
    {
        let head = self.head(ip);
        let word = self.operand_word(ip);
        let Some(opcode) = head.opcode() else {
            return Err(bad(ObjectFault::BadOpcode, head.no_opcode()));
        };
        if !self.operand_fits(opcode, word) {
            let wrong = self.operand_wrong(opcode, head, word);
            return Err(bad(ObjectFault::BadOpcode, wrong));
        }
        if !slot_fits(opcode, head.slot(), slots) {
            return Err(bad(ObjectFault::BadSlot, slot_wrong(opcode, head, slots)));
        }
        let operand = self.operand(opcode, word);
        if !self.dests_fit(end, ip, opcode, head) {
            let wrong = self.dests_wrong(end, ip, head);
            return Err(bad(ObjectFault::BadDestination, wrong));
        }
        if !self.target_fits(opcode, operand) {
            let wrong = Wrong::Target { operand };
            return Err(bad(ObjectFault::BadDestination, wrong));
        }
        self.check_number(opcode, operand)
    }

    /// The place of an instruction of this block, which begins with the instruction `first`.
    fn instr_place(&self, block: usize, first: usize, ip: usize) -> Place
        requires there { ip < self.now.instrs }
        requires after { first ≤ ip }
    {
        Place::Instr {
            block: block as u64,
            number: (ip - first) as u64,
            word: (HEADER + self.blocks + 2 * ip) as u64,
        }
    }

    /// Looks at the instructions of this block, from `first` on.
    fn check_block(&self, block: usize, slots: u32, first: usize, count: usize) -> Result<(), Flaw>
        requires there { first + count ≤ self.now.instrs }
        ensures { fault_of result ≡ Checks.each (Checks.instr_checked (Fields.word_at self.now.bytes.now) slots (first + count)) first count }
    {
        let end = first + count;
        for ip in first..end {
            if let Err(flaw) = self.check_instr(slots, end, ip) {
                return Err(flaw.at(self.instr_place(block, first, ip)));
            }
        }
        Ok(())
    }

    fn check_blocks(&self) -> Result<(), Flaw>
        ensures { fault_of result ≡ Checks.each (Checks.block_checked (Fields.word_at self.now.bytes.now)) 0 self.now.blocks }
    {
        let mut first = 0;
        for block in 0..self.blocks {
            let entry = self.entry(block);
            let count = entry.instrs() as usize;
            if let Err(flaw) = self.check_block(block, entry.slots(), first, count) {
                return Err(flaw);
            }
            first += count;
        }
        Ok(())
    }

    /// Looks at the arrays, the literals and the instructions.
    fn look(&self) -> Result<(), Flaw>
        ensures { fault_of result ≡ Checks.content_checked (Fields.word_at self.now.bytes.now) }
    {
        if let Err(flaw) = self.check_arrays() {
            return Err(flaw);
        }
        if let Err(flaw) = self.check_literals() {
            return Err(flaw);
        }
        self.check_blocks()
    }

    /// Looks at the arrays, the literals and the instructions.
    pub fn check(&self) -> Result<(), ObjectFault>
        ensures { result ≡ Checks.content_checked (Fields.word_at self.now.bytes.now) }
    {
        match self.look() {
            Ok(()) => Ok(()),
            Err(flaw) => Err(flaw.fault),
        }
    }
}

/// Something that is wrong with an instruction.
fn bad(fault: ObjectFault, wrong: Wrong) -> Flaw
    ensures { result.fault ≡ fault }
{
    Flaw::of(fault, Place::Length, wrong)
}

/// The number of a thing of which there are not so many.
fn absent(noun: &'static str, number: u64, count: u64) -> Wrong {
    Wrong::Absent {
        noun,
        number,
        count,
    }
}

impl Head {
    /// The number of the opcode.
    fn code(self) -> u64 {
        self.word % 256
    }

    fn no_opcode(self) -> Wrong {
        Wrong::Opcode {
            code: self.code(),
            flag: self.word / 256 % 256,
        }
    }
}

fn slot_fits(opcode: Opcode, slot: u32, slots: u32) -> bool
    ensures { result ≡ Checks.slot_fits opcode slot slots }
{
    if opcode.uses_slot() {
        slot < slots
    } else {
        slot == 0
    }
}

/// What is wrong with a slot that does not fit.
fn slot_wrong(opcode: Opcode, head: Head, slots: u32) -> Wrong {
    let slot = u64::from(head.slot());
    let slots = u64::from(slots);
    let code = head.code();
    if opcode.uses_slot() {
        Wrong::Slot { slot, slots }
    } else {
        Wrong::Slotless { slot, code }
    }
}

/// Why the bytes are not an object: the fault with which opening them ends, its place, and what is wrong there.
pub fn find_flaw(bytes: &[u8]) -> Option<Flaw>
    ensures { option_map (λ flaw. flaw.fault) result ≡ Checks.first_refusal bytes.now }
{
    let tables = match Tables::find(bytes) {
        Ok(tables) => tables,
        Err(flaw) => return Some(flaw),
    };
    match tables.look() {
        Ok(()) => None,
        Err(flaw) => Some(flaw),
    }
}
