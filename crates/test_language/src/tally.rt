//! How often something occurs, by name.

use operators::{Binary, Unary};
use source::fault::FaultKind;
use source::word::{InfixSign, Word};
use std::alloc::{AllocError, Global};
use std::io::{self, Write};
use tags::value::Value;
use test_random_programs::evaluation::{Meaning, MeantEnd};

/// A name, and how often it occurred.
#[derive(Clone, Copy)]
struct Count {
    name: &'static str,
    count: u64,
}

/// How often each name occurred, in the order in which each occurred first.
#[derive(Drop)]
pub struct Counts {
    counts: Vec<Count>,
}

impl Counts {
    fn new(alloc: Global) -> Counts {
        Counts {
            counts: Vec::new(alloc),
        }
    }

    pub fn count(&mut self, name: &'static str) -> Result<(), AllocError> {
        for count in &mut self.counts {
            if count.name == name {
                count.count = count.count.wrapping_add(1);
                return Ok(());
            }
        }
        Ok(self.counts.push(Count { name, count: 1 })?)
    }

    /// Prints the numbers in a line, if there are any.
    fn print<W: Write>(&self, out: &mut W, part: &str, things: &str) -> io::Result<()> {
        if self.counts.is_empty() {
            return Ok(());
        }
        write!(out, "{part}: {things}:")?;
        for Count { name, count } in &self.counts {
            write!(out, " {count} {name}")?;
        }
        writeln!(out)
    }
}

/// What is counted of texts, their programs, and the runs of these.
#[derive(Drop)]
pub struct Tally {
    /// The outcomes of texts.
    texts: Counts,
    refusals: Counts,
    forms: Counts,
    pub in_turn: Counts,
    pub in_rounds: Counts,
    pub listed: Counts,
    /// How many free runs there were: how they end may depend on which thread came first.
    pub free: u64,
    /// How many growths were refused.
    pub growths: u64,
}

impl Tally {
    pub fn new(alloc: Global) -> Tally {
        Tally {
            texts: Counts::new(alloc),
            refusals: Counts::new(alloc),
            forms: Counts::new(alloc),
            in_turn: Counts::new(alloc),
            in_rounds: Counts::new(alloc),
            listed: Counts::new(alloc),
            free: 0,
            growths: 0,
        }
    }

    /// Counts a text that is refused.
    pub fn count_refusal(&mut self, kind: FaultKind) -> Result<(), AllocError> {
        self.texts.count("refused")?;
        self.refusals.count(name_of_kind(kind))
    }

    /// Counts what a program means.
    pub fn count_meaning(&mut self, meaning: &Meaning) -> Result<(), AllocError> {
        self.texts.count("lowered")?;
        match meaning.end {
            MeantEnd::Clash => return self.texts.count("with a second store"),
            MeantEnd::Long => return self.texts.count("too long to be followed"),
            MeantEnd::Rest => self.texts.count("at rest")?,
        }
        if meaning.memory.waiting > 0 {
            self.texts.count("where readers wait")?;
        }
        if meaning.memory.full() > 0 {
            self.texts.count("with full cells")?;
        }
        for output in &meaning.outputs {
            if let Some(Value::Fault { .. }) = output {
                return self.texts.count("with a fault as output");
            }
        }
        Ok(())
    }

    /// Counts the forms of a program.
    pub fn count_forms(&mut self, words: &[Word<usize>]) -> Result<(), AllocError> {
        for word in words {
            if let Some(name) = name_of(*word) {
                self.forms.count(name)?;
            }
        }
        Ok(())
    }

    /// Prints the numbers.
    pub fn print<W: Write>(&self, out: &mut W, part: &str) -> io::Result<()> {
        self.texts.print(out, part, "texts")?;
        self.refusals.print(out, part, "refusals")?;
        self.forms.print(out, part, "forms")?;
        self.in_turn.print(out, part, "runs in turn")?;
        self.in_rounds.print(out, part, "runs in rounds")?;
        self.listed.print(out, part, "runs in random orders")?;
        if self.free > 0 {
            writeln!(out, "{part}: {} free runs", self.free)?;
        }
        if self.growths > 0 {
            writeln!(out, "{part}: {} growths refused", self.growths)?;
        }
        Ok(())
    }
}

fn name_of_sign(sign: InfixSign) -> &'static str {
    match sign {
        InfixSign::Direct { op } => match op {
            Binary::Add => "+",
            Binary::Sub => "-",
            Binary::Mul => "*",
            Binary::Div => "/",
            Binary::Rem => "%",
            Binary::And => "&",
            Binary::Or => "|",
            Binary::Xor => "^",
            Binary::Shl => "<<",
            Binary::Shr => ">>",
            Binary::Eq => "==",
            Binary::Ne => "!=",
            Binary::Lt => "<",
            Binary::Le => "<=",
        },
        InfixSign::Greater => ">",
        InfixSign::AtLeast => ">=",
    }
}

/// The form of which there is one for each such word.
fn name_of(word: Word<usize>) -> Option<&'static str> {
    match word {
        Word::Infix { sign, .. } => Some(name_of_sign(sign)),
        Word::Prefix { op: Unary::Neg, .. } => Some("signs"),
        Word::Prefix { op: Unary::Not, .. } => Some("~"),
        Word::Number { .. } => Some("numbers"),
        Word::Name { .. } => Some("names"),
        Word::Bracket => Some("brackets"),
        Word::Fetch { .. } => Some("fetches"),
        Word::Store { .. } => Some("stores"),
        Word::Call { strict: false, .. } => Some("calls"),
        Word::Call { strict: true, .. } => Some("strict calls"),
        Word::EndIf { .. } => Some("if"),
        Word::Chain => Some("else if"),
        Word::TestFirst => Some("loops that test first"),
        Word::BodyFirst => Some("loops that test last"),
        Word::EndLet { .. } => Some("let"),
        Word::Bind { .. } => Some("targets"),
        Word::Drop => Some("_"),
        Word::Do => Some("statements"),
        Word::Array { .. } => Some("arrays"),
        Word::Function { .. } => Some("functions"),
        Word::Results { .. } => Some("written numbers of results"),
        _ => None,
    }
}

fn name_of_kind(kind: FaultKind) -> &'static str {
    match kind {
        FaultKind::BadByte => "BadByte",
        FaultKind::BadNumber => "BadNumber",
        FaultKind::BadName => "BadName",
        FaultKind::Unexpected => "Unexpected",
        FaultKind::Unended => "Unended",
        FaultKind::TooDeep => "TooDeep",
        FaultKind::NotACell => "NotACell",
        FaultKind::SameName => "SameName",
        FaultKind::NoSuchName => "NoSuchName",
        FaultKind::Arity => "Arity",
        FaultKind::BadBound => "BadBound",
        FaultKind::BadCount => "BadCount",
        FaultKind::TooMany => "TooMany",
        FaultKind::TooWide => "TooWide",
        FaultKind::TooBig => "TooBig",
        FaultKind::NoMain => "NoMain",
        FaultKind::Memory => "Memory",
    }
}
