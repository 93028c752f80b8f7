//! The books of a run.

ghost use Rattle.std.specs.Prelude.{◌≡◌, ◌+◌, ◌*◌, ◌≤◌, ◌++◌, length, All, IfOk, IfErr};
ghost use Rattle.tags.specs.declared.slot.SlotState.TheVariants.{Empty};
ghost use Rattle.frame_store.specs.BankViews.{bank_states};
ghost use Rattle.frame_store.specs.Slots.{all_empty};
ghost use Rattle.replay.specs.Entering.{IsExtent, IsBlank, IsFreshLane, AreBooks, Says, HasNoRun};

use crate::entry::Books;
use crate::extent::Extent;
use crate::fault::ReplayRefusal;
use crate::ledger::Ledger;
use crate::token_index::TokenIndex;
use element::instructions::Instructions;
use element::lane::Lane;
use frame_manager::Manager;
use frame_store::bank::BankMut;
use frame_store::store::Store;
use istructure::Cells;
use std::alloc::{AllocError, Allocator};
use tags::token::Token;

/// More events than there are in memory.
const MOST: u64 = 9_223_372_036_854_775_807;

// A lane that is all of the machine, before its first token.
fn lane_over<'m, C: Instructions, A: Allocator>(
    alloc: A,
    bank: BankMut<'m>,
    code: &'m C,
    extent: Extent,
) -> Result<Lane<'m, C, A>, AllocError>
where
    A: Clone,
    requires extent { IsExtent (C.program code.now) (C.width code.now) extent }
    requires bank { bank.start + bank.frames * bank.width ≤ length (bank_states bank) }
    requires empty { All (λ s. s ≡ Empty) (bank_states bank) }
    requires frames { bank.frames ≡ extent.frames }
    requires slots { bank.width ≡ extent.slots }
    ensures { IfOk result (IsFreshLane (C.program code.now) extent) }
{
    let cells = Cells::new(alloc.clone()?, extent.cells, 0, 1)?;
    let manager = Manager::new(alloc.clone()?, extent.frames)?;
    Lane::new(
        alloc,
        code,
        MOST,
        0,
        1,
        bank,
        cells,
        Some(manager),
        extent.outputs,
    )
}

// A ledger in which nothing is entered yet, over a store of empty slots for all frames of the machine. It takes as much memory as the machine.
fn open<'m, C: Instructions, A: Allocator>(
    alloc: A,
    store: &'m mut Store<A>,
    code: &'m C,
    extent: Extent,
) -> Result<Ledger<'m, C, A>, AllocError>
where
    A: Clone,
    requires extent { IsExtent (C.program code.now) (C.width code.now) extent }
    requires empty { store.old ≡ all_empty 1 extent.frames extent.slots }
    ensures { IfOk result (λ g. IsBlank (C.program code.now) g × (g.extent ≡ extent)) }
{
    let places = Vec::new(alloc.clone()?);
    let index = TokenIndex::new(alloc.clone()?)?;
    let Some(bank) = store.banks().next() else {
        return Err(AllocError);
    };
    let lane = lane_over(alloc, bank, code, extent)?;
    Ok(Ledger {
        extent,
        lane,
        places,
        index,
    })
}

// The books that the ledger keeps.
fn keep_in<C: Instructions, A: Allocator + Clone>(
    alloc: A,
    ledger: Ledger<'_, C, A>,
    code: &C,
    inputs: &[i64],
    earlier: &[(u32, Token)],
    events: &[(u32, Token)],
) -> Result<Books<A>, ReplayRefusal>
    requires blank { IsBlank (C.program code.now) ledger }
    requires extent { IsExtent (C.program code.now) (C.width code.now) ledger.extent }
    requires few { length inputs.now ≤ 16 }
    ensures books { IfOk result (AreBooks (C.program code.now) ledger.entry.extent inputs.now earlier.now events.now) }
    ensures unfit { IfErr result (λ fault. Says fault (HasNoRun (C.program code.now) ledger.entry.extent inputs.now (earlier.now ++ events.now))) }
{
    let mut ledger = ledger;
    let books = ledger.keep(alloc, code, inputs, earlier, events);
    drop(ledger);
    books
}

/// The books of `events` of a run on these inputs, before which there were the events `earlier`. The machine hands out the free frame of least
/// number, and gives a released frame to the request that has waited longest. What is answered is a run of the machine by these events.
/// `NotARun` says that no machine of this extent has such a run by them. It takes as much memory as the machine, as all tokens that the run
/// makes, and as the books.
pub fn keep_books<C: Instructions, A: Allocator + Clone>(
    alloc: A,
    code: &C,
    extent: Extent,
    inputs: &[i64],
    earlier: &[(u32, Token)],
    events: &[(u32, Token)],
) -> Result<Books<A>, ReplayRefusal>
    requires extent { IsExtent (C.program code.now) (C.width code.now) extent }
    requires few { length inputs.now ≤ 16 }
    ensures books { IfOk result (AreBooks (C.program code.now) extent inputs.now earlier.now events.now) }
    ensures unfit { IfErr result (λ fault. Says fault (HasNoRun (C.program code.now) extent inputs.now (earlier.now ++ events.now))) }
{
    let mut store = Store::new(
        alloc.clone()?,
        1,
        extent.frames as usize,
        extent.slots as usize,
    )?;
    let ledger = open(alloc.clone()?, &mut store, code, extent)?;
    keep_in(alloc, ledger, code, inputs, earlier, events)
}
