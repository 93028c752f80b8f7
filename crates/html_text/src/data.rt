//! The data of a run.

ghost use Rattle.std.specs.Prelude.{◌≡◌};
ghost use Rattle.html_text.specs.DataText.{line_lead, deed_letter, event_head, event_text, listed_change, changes_text, comma, listed_number, listed_numbers, size_text};
ghost use Rattle.html_text.specs.DataText.{before_text, start_text, data_text};
ghost use Rattle.trace_text.specs.TraceText.{paired};
ghost use Rattle.sink.specs.Sends.{Sends};

use crate::changes::send_change;
use crate::pieces::{send_beyond, send_long, send_number};
use crate::tokens::send_tokens;
use replay::{Books, Change, Deed, Entry};
use sink::send;
use std::alloc::Allocator;
use std::io::{self, Write};
use tags::token::Token;

/// What is before the event of this number.
fn line_lead(place: usize) -> &'static [u8]
    ensures { result.now ≡ line_lead place }
{
    match place {
        0 => b"\n\"",
        _ => b",\n\"",
    }
}

/// The letter of a deed.
fn deed_letter(deed: Deed) -> &'static [u8]
    ensures { result.now ≡ deed_letter deed }
{
    match deed {
        Deed::Waited => b"w",
        Deed::Fired => b"f",
        Deed::Answered => b"a",
        Deed::Deferred => b"d",
        Deed::Stored => b"s",
        Deed::Served => b"v",
        Deed::Given => b"g",
        Deed::Queued => b"q",
        Deed::Freed => b"b",
        Deed::HandedOn => b"h",
        Deed::Arrived => b"o",
    }
}

/// The element, the deed, and the token taken.
fn send_head<W: Write>(
    writer: &mut W,
    first: u64,
    place: usize,
    element: u32,
    number: u64,
    deed: Deed,
) -> io::Result<()>
    ensures { Sends result (W.contents writer.old) (W.contents writer.new) (event_head first place element number deed) }
{
    send_number(writer, line_lead(place), element)?;
    send_beyond(writer, deed_letter(deed), number, first, place)
}

/// An event.
fn send_event<A: Allocator, W: Write>(
    writer: &mut W,
    first: u64,
    place: usize,
    event: &(u32, Token),
    entry: &Entry<A>,
) -> io::Result<()>
    ensures { Sends result (W.contents writer.old) (W.contents writer.new) (event_text first place event.now entry.now) }
{
    send_head(writer, first, place, event.0, entry.number, entry.deed)?;
    send(writer, b";")?;
    send_change(writer, entry.change)?;
    send(writer, b";")?;
    send_tokens(writer, &entry.made)?;
    send(writer, b"\"")
}

/// All events.
fn send_events<A: Allocator, W: Write>(
    writer: &mut W,
    first: u64,
    events: &[(u32, Token)],
    entries: &[Entry<A>],
) -> io::Result<()>
    ensures { Sends result (W.contents writer.old) (W.contents writer.new) (paired (event_text first) 0 events.now entries.now) }
{
    for (place, event) in events.iter().enumerate() {
        let Some(entry) = entries.get(place) else {
            return Ok(());
        };
        send_event(writer, first, place, event, entry)?;
    }
    Ok(())
}

/// A change in a list.
fn send_listed_change<W: Write>(writer: &mut W, place: usize, change: Change) -> io::Result<()>
    ensures { Sends result (W.contents writer.old) (W.contents writer.new) (listed_change place change) }
{
    send(writer, line_lead(place))?;
    send_change(writer, change)?;
    send(writer, b"\"")
}

/// The changes of the earlier events.
fn send_changes<W: Write>(writer: &mut W, changes: &[Change]) -> io::Result<()>
    ensures { Sends result (W.contents writer.old) (W.contents writer.new) (changes_text changes.now) }
{
    for place in 0..changes.len() {
        send_listed_change(writer, place, changes[place])?;
    }
    Ok(())
}

/// What is before a number of a list.
fn comma(place: usize) -> &'static [u8]
    ensures { result.now ≡ comma place }
{
    match place {
        0 => b"",
        _ => b",",
    }
}

/// A number in a list.
fn send_listed_number<W: Write>(writer: &mut W, place: usize, number: u64) -> io::Result<()>
    ensures { Sends result (W.contents writer.old) (W.contents writer.new) (listed_number place number) }
{
    send_long(writer, comma(place), number)
}

/// The numbers of tokens.
fn send_numbers<W: Write>(writer: &mut W, numbers: &[u64]) -> io::Result<()>
    ensures { Sends result (W.contents writer.old) (W.contents writer.new) (listed_numbers numbers.now) }
{
    for place in 0..numbers.len() {
        send_listed_number(writer, place, numbers[place])?;
    }
    Ok(())
}

/// The numbers of the machine, and that of the first event shown.
fn send_size<W: Write>(writer: &mut W, elements: u32, frames: u32, first: u64) -> io::Result<()>
    ensures { Sends result (W.contents writer.old) (W.contents writer.new) (size_text elements frames first) }
{
    send_number(writer, b"{\"format\":2,\"elements\":", elements)?;
    send_number(writer, b",\"frames\":", frames)?;
    send_long(writer, b",\"first\":", first)
}

/// What the earlier events changed.
fn send_before<A: Allocator, W: Write>(writer: &mut W, books: &Books<A>) -> io::Result<()>
    ensures { Sends result (W.contents writer.old) (W.contents writer.new) (before_text books.now) }
{
    send(writer, b",\"out\":[0],\"changes\":[")?;
    send_changes(writer, &books.changes)?;
    send_long(writer, b"],\"next\":", books.next)
}

/// The tokens that are on their way before the first event shown.
fn send_start<A: Allocator, W: Write>(writer: &mut W, books: &Books<A>) -> io::Result<()>
    ensures { Sends result (W.contents writer.old) (W.contents writer.new) (start_text books.now) }
{
    send(writer, b",\"numbers\":[")?;
    send_numbers(writer, &books.numbers)?;
    send(writer, b"],\"start\":\"")?;
    send_tokens(writer, &books.tokens)
}

/// Writes the data of a run on so many elements, which have so many frames in all, from event number `first` on: one JSON object with what
/// there is before that event, and with an entry for each event, each on a line, packed into a string. `books` are the books of these events: their entries go in
/// pairs with the events, and the shorter list ends it. The writer is called until it has taken all of it; a call that takes no byte is a fault.
/// After an `Err` a beginning of the text was written. Takes no memory.
pub fn write_data<A: Allocator, W: Write>(
    writer: &mut W,
    elements: u32,
    frames: u32,
    first: u64,
    events: &[(u32, Token)],
    books: &Books<A>,
) -> io::Result<()>
    ensures { Sends result (W.contents writer.old) (W.contents writer.new) (data_text elements frames first events.now books.now) }
{
    send_size(writer, elements, frames, first)?;
    send_before(writer, books)?;
    send_start(writer, books)?;
    send(writer, b"\",\"events\":[")?;
    send_events(writer, first, events, &books.entries)?;
    send(writer, b"\n]}")
}
