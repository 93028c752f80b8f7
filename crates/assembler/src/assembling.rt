//! The object that a listing is of.

ghost use Rattle.std.specs.Prelude.{◌≡◌, ◌⊎◌, ℕ, None, Ok, IfOk, MatchResult};
ghost use Rattle.semantics.specs.Versions.{version_number};
ghost use Rattle.object_view.specs.Reading.{opened};
ghost use Rattle.object_view.specs.Checks.{first_refusal};
ghost use Rattle.semantics.specs.Program as Program;
ghost use Rattle.semantics.specs.Bytes.{IsCode};
ghost use Rattle.assembler.specs.Causes.{fault_kind, fault_of};
ghost use Rattle.assembler.specs.Grammar.{IsListingOf};
ghost use Rattle.assembler.specs.Assembling as Assembling;
ghost use Rattle.assembler.specs.Laws.{IsExact, IsUnique, AllHaveListings, RoundTrips, Reassembles};
ghost use Rattle.assembler.specs.declared.fault.AsmFaultKind.TheVariants.{Memory};

use crate::cause::{AsmCause, AsmRefusal};
use crate::checks::{check_code, literals_of};
use crate::fault::AsmFault;
use crate::reading::{line_at, read_text};
use code::Code;
use object_view::Object;
use semantics::version::Version;
use std::alloc::Allocator;

/// What a listing is of: `object_view::write` makes the object.
#[derive(Drop)]
pub struct Assembled<A: Allocator> {
    pub version: Version,
    pub code: Code<A>,
}

fn version_of(version: u32) -> Version
    requires { (version ≡ 1) ⊎ (version ≡ 2) }
    ensures { version_number result ≡ version }
{
    if version == 1 {
        Version::One
    } else {
        Version::Two
    }
}

/// The version and the code that a text is a listing of, if they have an object.
pub fn assemble<A: Allocator + Clone>(alloc: A, text: &[u8]) -> Result<Assembled<A>, AsmFault>
    // What is assembled has an object, and the text is a listing of it.
    ensures object { IfOk result (λ a. IsListingOf text.now (version_number a.version) a.code × IsCode (version_number a.version) a.code) }
    // Each listing of a code that has an object is assembled as this code, unless memory runs out.
    ensures complete { (version : ℕ) (c : Program.Code) → IsListingOf text.now version c → IsCode version c → MatchResult result
        (λ a. (version_number a.version ≡ version) × (a.code ≡ c))
        (λ e. e.kind ≡ Memory) }
    // Which fault it is.
    ensures exact { MatchResult result (λ a. Assembling.assembled text.now ≡ Ok (version_number a.version, a.code))
        (λ e. Assembling.IsFirstFault e (Assembling.assembled text.now)) }
{
    match assemble_listing(alloc, text) {
        Ok(assembled) => Ok(assembled),
        Err(refusal) => Err(refusal.fault()),
    }
}

/// The version and the code that a text is a listing of, or why there is no object of it: what `assemble` returns, with what was known
/// where the fault was found.
pub fn assemble_listing<A: Allocator + Clone>(
    alloc: A,
    text: &[u8],
) -> Result<Assembled<A>, AsmRefusal>
    ensures object { IfOk result (λ a. IsListingOf text.now (version_number a.version) a.code × IsCode (version_number a.version) a.code) }
    ensures complete { (version : ℕ) (c : Program.Code) → IsListingOf text.now version c → IsCode version c → MatchResult result
        (λ a. (version_number a.version ≡ version) × (a.code ≡ c))
        (λ r. fault_kind r.cause ≡ Memory) }
    ensures exact { MatchResult result (λ a. Assembling.assembled text.now ≡ Ok (version_number a.version, a.code))
        (λ r. Assembling.IsFirstFault (fault_of r) (Assembling.assembled text.now)) }
{
    let read = match read_text(alloc.clone()?, text) {
        Ok(read) => read,
        Err(refusal) => return Err(refusal),
    };
    let literals = literals_of(alloc, &read.code)?;
    match check_code(read.version, &read.code, &literals) {
        Ok(()) => Ok(Assembled {
            version: version_of(read.version),
            code: read.code,
        }),
        Err(refusal) => Err(AsmRefusal {
            cause: AsmCause::Unfit(refusal.unfit),
            line: line_at(text, refusal.index),
        }),
    }
}

/// What is assembled of a text is the object that the text is a listing of, and a text is a listing of one object at most.
/// What is listed of an object with its literals is a listing of it, and gives the object's bytes again; so does what is listed
/// without them, where each literal of the table is an operand.
pub fn one_object()
    ensures exact { IsExact }
    ensures unique { IsUnique }
    ensures listing_is_whole { AllHaveListings }
    ensures round_trip { RoundTrips }
{}

/// What is listed of an object that is opened is assembled as this object: with its literals always, and without them where each
/// of them is an operand.
pub fn reassembles(bytes: &[u8])
    ensures { first_refusal bytes.now ≡ None → Reassembles bytes.now (opened bytes.now).version (opened bytes.now).code }
{
    let _object = Object::open(bytes);
}
