//! What a name stands for where it is called.

ghost use Rattle.std.specs.Prelude.{◌≡◌, ◌<◌, take, drop, length, ℕ, List};
ghost use Rattle.semantics.specs.Graph.{same_name};
ghost use Rattle.source.specs.Words.{name_of};
ghost use Rattle.surface.specs.Known as known;
ghost use Rattle.surface_check.specs.Callees.{CalleesAreKnown, callee_of};
ghost use Rattle.surface_check.specs.Pins.{callee_in, signature_in};
ghost use Rattle.surface_check.specs.Table.{IsTable, item_in};

use crate::entry::Entry;
use crate::table::Table;
use graph::Name;
use std::alloc::Allocator;

/// What is built in.
#[derive(Clone, Copy)]
pub enum BuiltIn {
    Min,
    Max,
    Abs,
    Len,
}

/// What is called.
#[derive(Clone, Copy)]
pub enum Callee {
    Missing,
    /// A function all of whose parameters are values.
    OfValues {
        params: usize,
        results: u64,
    },
    /// A function with parameters for arrays: its ranks are side by side in the table.
    OfArrays {
        first: usize,
        params: usize,
        results: u64,
    },
    IsBuiltIn {
        which: BuiltIn,
    },
}

/// Whether the name has these bytes.
fn is_named<'a>(name: &Name<'a>, text: &[u8]) -> bool
    ensures { result ≡ same_name name.now text.now }
{
    name.bytes == text
}

/// What a name means where no function has it.
fn built_in<'a>(name: &Name<'a>) -> Callee
    ensures { (ranks : List ℕ) → callee_of ranks result ≡ known.built_in name.now }
{
    let which = if is_named(name, b"min".as_slice()) {
        BuiltIn::Min
    } else if is_named(name, b"max".as_slice()) {
        BuiltIn::Max
    } else if is_named(name, b"abs".as_slice()) {
        BuiltIn::Abs
    } else if is_named(name, b"len".as_slice()) {
        BuiltIn::Len
    } else {
        return Callee::Missing;
    };
    Callee::IsBuiltIn { which }
}

/// The same of a number in a table of names.
#[tactic(auto, using(crate::proofs::Callees::named_is))]
fn built_in_at<'a>(names: &[Name<'a>], name: usize) -> Callee
    ensures { (ranks : List ℕ) → callee_of ranks result ≡ known.built_in (name_of names.now name) }
{
    if name < names.len() {
        built_in(&names[name])
    } else {
        Callee::Missing
    }
}

fn all_values(ranks: &[u64]) -> bool
    ensures { result ≡ known.all_values ranks.now }
{
    for rank in ranks {
        if *rank != 0 {
            return false;
        }
    }
    true
}

/// So many ranks from the first one on.
#[tactic(auto, using(crate::proofs::Callees::within))]
pub(crate) fn own_ranks(ranks: &[u64], first: usize, params: usize) -> &[u64]
    ensures { result.now ≡ take params (drop first ranks.now) }
{
    let left = &ranks[first.min(ranks.len())..];
    &left[..params.min(left.len())]
}

fn called(ranks: &[u64], first: usize, params: usize, results: u64) -> Callee
    ensures { callee_of ranks.now result ≡ known.called (record { ranks = take params (drop first ranks.now); results = results }) }
{
    let own = own_ranks(ranks, first, params);
    if all_values(own) {
        Callee::OfValues {
            params: own.len(),
            results,
        }
    } else {
        Callee::OfArrays {
            first,
            params,
            results,
        }
    }
}

impl<A: Allocator> Table<A> {
    fn called_by<'a>(&self, names: &[Name<'a>], strict: bool, name: usize) -> Callee
        ensures { callee_of self.now.ranks result
            ≡ callee_in strict (known.built_in (name_of names.now name)) (signature_in self.now.ranks (item_in self.now.entries name)) }
    {
        match self.get(name) {
            Some(
                Entry::Function {
                    first,
                    params,
                    results,
                },
            ) => called(self.ranks(), first, params, results),
            Some(Entry::Constant { .. } | Entry::Array { .. }) | None => {
                if strict {
                    Callee::Missing
                } else {
                    built_in_at(names, name)
                }
            }
        }
    }

    /// What a call calls by the name with this number: the function that has the name, else what is built in, unless the call is
    /// strict.
    #[tactic(auto, using(crate::proofs::Callees::callee_known))]
    pub fn callee<'a>(&self, names: &[Name<'a>], strict: bool, name: usize) -> Callee
        ensures item { callee_of self.now.ranks result
            ≡ callee_in strict (known.built_in (name_of names.now name)) (signature_in self.now.ranks (item_in self.now.entries name)) }
        ensures known { (k : known.Known) → IsTable names.now (item_in self.now.entries) self.now.ranks k → name < length names.now
            → callee_of self.now.ranks result ≡ known.callee k strict (name_of names.now name) }
    {
        self.called_by(names, strict, name)
    }
}

/// What the steps over words call is what the rules say that a call calls.
#[tactic(auto, using(crate::proofs::Callees::callees_are_known))]
pub fn callees_are_known()
    ensures { CalleesAreKnown }
{}
