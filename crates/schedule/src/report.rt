//! What a run reports.

use arrayvec::ArrayVec;
use semantics::report::End;
use std::alloc::Allocator;
use std::marker::Model;
use tags::token::Token;
use tags::value::Value;

/// How a run ended, and what the machine held then. Contracts see the report of the definitions.
#[derive(Drop)]
pub struct Report<A: Allocator> {
    pub end: End,
    /// By port; `None` where no value arrived.
    pub outputs: ArrayVec<Option<Value>, 16>,
    /// The full cells with their values, ascending by the cell's number over all arrays.
    pub cells: Vec<(u32, Value), A>,
    /// How many readers wait in cells.
    pub deferred: u64,
    /// How many requests for frames wait.
    pub waiting_frames: u64,
    /// How many requests for credits wait.
    pub waiting_credits: u64,
    /// How many frames are out.
    pub frames_out: u64,
    /// Each event in order: the element, and the token that it took.
    pub events: Vec<(u32, Token), A>,
}

impl<A: Allocator> Model for Report<A> {
    ghost use Rattle.semantics.specs.Report.{Report};

    ghost Value = { Report };

    ghost view = { λ r. record {
      end = r.end;
      outputs = r.outputs.items;
      cells = r.cells.items;
      deferred = r.deferred;
      waiting_frames =
          r.waiting_frames;
      waiting_credits = r.waiting_credits;
      frames_out = r.frames_out;
      events = r.events.items;
    } };
}
