//! The books of a run of an object.

ghost use Rattle.std.specs.Prelude.{◌≤◌, Bool, false, IfOk, length};
ghost use Rattle.driver.specs.ListedEvents.{HasBooks};
ghost use Rattle.driver.specs.Objects.{ShowsObject};

use loaded::Loaded;
use object_view::OwnedObject;
use replay::{Books, Extent, ReplayRefusal, keep_books};
use schedule::config::Config;
use schedule::main_code::MainCode;
use schedule::report::Report;
use std::alloc::{AllocError, Allocator};

/// The books of the events that the report lists, from number `first` on. The report is of a run of the object. It takes as much memory as the
/// machine, as all tokens that the run makes, and as the books. An error is that this was refused.
pub fn books_of<A: Allocator + Clone>(
    alloc: A,
    object: &OwnedObject<A>,
    inputs: &[i64],
    config: Config,
    report: &Report<A>,
    first: usize,
) -> Result<Books<A>, AllocError>
    requires shows { (may_stop : Bool) × ShowsObject object.now.bytes inputs.now config false may_stop report.now }
    requires within { first ≤ length report.now.events }
    ensures { IfOk result (HasBooks object.now.bytes inputs.now config first report.now) }
{
    let code = Loaded::new(alloc.clone()?, object.as_object())?;
    // What the bytes promise: they are the object of this code, which has few inputs.
    let _bytes = code.object().bytes();
    let _count = code.inputs();
    let extent = Extent {
        elements: config.elements as u32,
        frames: (config.elements * config.frames) as u32,
        slots: code.slots(),
        cells: code.cells(),
        main: code.main_entry(),
        outputs: code.outputs(),
    };
    let (earlier, events) = report.events.split_at(first);
    match keep_books(alloc, &code, extent, inputs, earlier, events) {
        Ok(books) => Ok(books),
        Err(ReplayRefusal::Memory) => Err(AllocError),
        Err(ReplayRefusal::NotARun) => unreachable!(),
    }
}
