//! The words of an object's bytes.

ghost use Rattle.std.specs.Prelude.{◌≡◌, ◌+◌, ◌*◌, ◌%◌, ◌<◌, ◌≤◌, Some, None, IsSome, length, option_map};
ghost use Rattle.object_view.specs.Fields as Fields;
ghost use Rattle.semantics.specs.Opcodes as Opcodes;

use byteorder::{ByteOrder, LittleEndian};
use operators::{Binary, Unary};
use semantics::opcode::Opcode;
use semantics::program::Dest;
use tags::token::Port;
use tags::value::{NodeNumber, Origin};

#[tactic(auto, unfolding(crate::specs::Fields::word_at))]
/// The word at a place, counted in words.
#[inline(always)]
pub fn word_at(bytes: &[u8], place: usize) -> u64
    requires { 8 * place + 8 ≤ length bytes.now }
    ensures { result ≡ Fields.word_at bytes.now place }
{
    LittleEndian::read_u64(&bytes[8 * place..])
}

/// An entry of the block table.
#[derive(Clone, Copy, Debug, PartialEq, Eq)]
pub struct Entry {
    pub word: u64,
}

impl Entry {
    /// How many instructions the block has.
    pub fn instrs(self) -> u32
        ensures { result ≡ Fields.count_in self.word }
    {
        (self.word % 0x1_0000_0000) as u32
    }

    pub fn inputs(self) -> u32
        ensures { result ≡ Fields.inputs_in self.word }
    {
        (self.word / 0x1_0000_0000 % 256) as u32
    }

    pub fn outputs(self) -> u32
        ensures { result ≡ Fields.outputs_in self.word }
    {
        (self.word / 0x100_0000_0000 % 256) as u32
    }

    pub fn slots(self) -> u32
        ensures { result ≡ Fields.slots_in self.word }
    {
        (self.word / 0x1_0000_0000_0000) as u32
    }
}

// The opcode of an operator with a flag that exists.
#[inline(always)]
fn with_flag(op: Binary, flag: u64) -> Opcode
    requires { IsSome (Opcodes.flagged op flag) }
    ensures { Opcodes.flagged op flag ≡ Some result }
{
    match flag {
        0 => Opcode::Apply2 { op },
        1 => Opcode::Apply2Right { op },
        _ => Opcode::Apply2Left { op },
    }
}

/// The first word of an instruction.
#[derive(Clone, Copy, Debug, PartialEq, Eq)]
pub struct Head {
    pub word: u64,
}

impl Head {
    /// What the opcode and the flag say, if they exist.
    #[inline(always)]
    pub fn opcode(self) -> Option<Opcode>
        ensures { result ≡ Fields.opcode_in self.word }
    {
        Opcode::of_code((self.word % 256) as u8, (self.word / 256 % 256) as u8)
    }

    /// The opcode that this operator has by the flag, where the code is its own and the flag exists.
    #[inline(always)]
    fn known_operator(self, op: Binary) -> Opcode
        requires there { IsSome (Fields.opcode_in self.word) }
        requires code { self.word % 256 ≡ Opcodes.binary_code op }
        ensures { Fields.opcode_in self.word ≡ Some result }
    {
        with_flag(op, self.word / 256 % 256)
    }

    /// The code, where it exists. All codes are below 64: six bits tell them, with room for more.
    #[inline(always)]
    fn known_code(self) -> u64
        requires { IsSome (Fields.opcode_in self.word) }
        ensures code { result ≡ self.word % 256 }
        ensures there { 0 < result }
        ensures within { result ≤ 32 }
    {
        self.word % 64
    }

    /// The opcode, where it exists. No two have one code, so that one jump leads to each.
    #[inline(always)]
    pub fn known_opcode(self) -> Opcode
        requires { IsSome (Fields.opcode_in self.word) }
        ensures { Fields.opcode_in self.word ≡ Some result }
    {
        match self.known_code() {
            1 => self.known_operator(Binary::Add),
            2 => self.known_operator(Binary::Sub),
            3 => self.known_operator(Binary::Mul),
            4 => self.known_operator(Binary::Div),
            5 => self.known_operator(Binary::Rem),
            6 => self.known_operator(Binary::And),
            7 => self.known_operator(Binary::Or),
            8 => self.known_operator(Binary::Xor),
            9 => self.known_operator(Binary::Shl),
            10 => self.known_operator(Binary::Shr),
            11 => self.known_operator(Binary::Eq),
            12 => self.known_operator(Binary::Ne),
            13 => self.known_operator(Binary::Lt),
            14 => self.known_operator(Binary::Le),
            15 => Opcode::Apply1 { op: Unary::Neg },
            16 => Opcode::Apply1 { op: Unary::Not },
            17 => Opcode::Lit,
            18 => Opcode::Copy,
            19 => Opcode::Sync,
            20 => Opcode::Switch,
            21 => Opcode::Fetch,
            22 => Opcode::Store,
            23 => Opcode::Frame,
            24 => Opcode::Link,
            25 => Opcode::Send,
            26 => Opcode::Return,
            27 => Opcode::Ask,
            28 => Opcode::Open,
            29 => Opcode::Take,
            30 => Opcode::Give,
            31 => Opcode::Drain,
            _ => Opcode::Release,
        }
    }

    #[inline(always)]
    pub fn slot(self) -> u32
        ensures { result ≡ Fields.slot_in self.word }
    {
        (self.word / 65_536 % 65_536) as u32
    }

    /// The half word of the first destination.
    #[inline(always)]
    pub fn first(self) -> u32
        ensures { result ≡ Fields.first_half self.word }
    {
        (self.word / 0x1_0000_0000 % 65_536) as u32
    }

    /// The half word of the second destination.
    #[inline(always)]
    pub fn second(self) -> u32
        ensures { result ≡ Fields.second_half self.word }
    {
        (self.word / 0x1_0000_0000_0000) as u32
    }
}

/// The destination that a half word has, if it has one.
#[inline(always)]
pub fn dest_of(half: u32) -> Option<Dest>
    ensures { result ≡ Fields.dest_of half }
{
    let ahead = half % 32_768;
    if ahead == 0 {
        return None;
    }
    let port = if half / 32_768 == 0 {
        Port::Left
    } else {
        Port::Right
    };
    Some(Dest { ahead, port })
}

/// The origin of a number: 0 for one that is not recorded, else one more than 1,024 times the block and the node.
#[inline(always)]
pub fn origin_of(number: u64) -> Origin
    ensures { result ≡ Fields.origin_of number }
{
    if number == 0 {
        return Origin::Untold;
    }
    let place = number - 1;
    Origin::At {
        block: (place / 1024 % 256) as u8,
        node: NodeNumber::new((place % 1024) as u16),
    }
}
