//! What becomes of objects that are changed. Each is refused, or else it is taken apart, written again to the same bytes, and
//! run. The table is standard input. Its lines:
//!
//! - `: HEX..` appends bytes, two digits each, to the current object, and `* COUNT HEX..` appends them COUNT times;
//! - `base` makes the current object the base, and says what becomes of it when any one byte is changed, how the runs of
//!   those end that are not refused, and what becomes of it when it ends too early, and when eight bytes follow it;
//! - `= ANSWER` begins with a copy of the base, which should have this answer once it is changed: `ok`, or the refusal;
//! - `@ PLACE HEX..` overwrites the bytes from number PLACE on;
//! - `cut COUNT` keeps the first COUNT bytes, and `empty` keeps none.
//!
//! What follows a `#` is a comment.
#![tactic(auto)]

mod changes;
mod outcome;
mod runs;
mod table;

use std::io;
use table::Table;

fn main(rt: HostRuntime) -> io::Result<()> {
    let mut table = Table::new(rt.alloc(), io::writer(&rt));
    for line in rt.lines(rt.alloc()) {
        table.take(line?.as_bytes())?;
    }
    table.finish()
}
