//! A trace in the Trace Event format.

ghost use Rattle.std.specs.Prelude.{◌≡◌};
ghost use Rattle.trace_text.specs.TraceText.{paired, lane_text, lanes_text, slice_open, slice_deed, slice_place, slice_text, counter_text};
ghost use Rattle.trace_text.specs.TraceText.{event_objects, chrome_text};
ghost use Rattle.sink.specs.Sends.{Sends};

use crate::columns::{deed_word, name_at, port_at, send_at, send_frame};
use crate::words::send_carried;
use itoa::Buffer;
use object_view::Object;
use replay::{Deed, Moment};
use sink::{send, send_all};
use std::io::{self, Write};
use tags::token::{To, Token};

/// The object that names the lane of an element.
fn send_lane<W: Write>(writer: &mut W, element: u32) -> io::Result<()>
    ensures { Sends result (W.contents writer.old) (W.contents writer.new) (lane_text element) }
{
    let mut digits = Buffer::new();
    let element = digits.format(element).as_bytes();
    send_all(
        writer,
        &[
            b"{\"ph\":\"M\",\"pid\":0,\"tid\":",
            element,
            b",\"name\":\"thread_name\",\"args\":{\"name\":\"element ",
            element,
            b"\"}},\n",
        ],
    )
}

/// The objects that name the lanes.
fn send_lanes<W: Write>(writer: &mut W, elements: u32) -> io::Result<()>
    ensures { Sends result (W.contents writer.old) (W.contents writer.new) (lanes_text 0 elements) }
{
    for element in 0..elements {
        send_lane(writer, element)?;
    }
    Ok(())
}

/// What the object of an event begins with.
fn send_open<W: Write>(
    writer: &mut W,
    object: &Object<'_>,
    number: u128,
    element: u32,
    to: &To,
) -> io::Result<()>
    ensures { Sends result (W.contents writer.old) (W.contents writer.new) (slice_open object.now.code.program number element to.now) }
{
    let mut first = Buffer::new();
    let mut second = Buffer::new();
    let element = first.format(element).as_bytes();
    let number = second.format(number).as_bytes();
    send_all(
        writer,
        &[
            b"{\"ph\":\"X\",\"pid\":0,\"tid\":",
            element,
            b",\"ts\":",
            number,
            b",\"dur\":1,\"name\":\"",
            name_at(object, to),
        ],
    )
}

/// The port that a token goes to, and what it did.
fn send_doing<W: Write>(writer: &mut W, to: &To, deed: Deed) -> io::Result<()>
    ensures { Sends result (W.contents writer.old) (W.contents writer.new) (slice_deed to.now deed) }
{
    send_all(
        writer,
        &[
            b"\",\"port\":\"",
            port_at(to),
            b"\",\"deed\":\"",
            deed_word(deed),
        ],
    )
}

/// Where a token goes, and what it did.
fn send_place<W: Write>(writer: &mut W, object: &Object<'_>, to: &To, deed: Deed) -> io::Result<()>
    ensures { Sends result (W.contents writer.old) (W.contents writer.new) (slice_place object.now.code.program to.now deed) }
{
    send_frame(writer, b"\",\"args\":{\"frame\":\"", to)?;
    send_at(writer, b"\",\"at\":\"", object, to)?;
    send_doing(writer, to, deed)
}

/// The object of an event.
fn send_slice<W: Write>(
    writer: &mut W,
    object: &Object<'_>,
    number: u128,
    event: &(u32, Token),
    deed: Deed,
) -> io::Result<()>
    ensures { Sends result (W.contents writer.old) (W.contents writer.new) (slice_text object.now.code.program number event.now deed) }
{
    send_open(writer, object, number, event.0, &event.1.to)?;
    send_place(writer, object, &event.1.to, deed)?;
    send(writer, b"\",\"word\":\"")?;
    send_carried(writer, &event.1)?;
    send(writer, b"\"}},\n")
}

/// The object of what the machine holds after an event.
fn send_counter<W: Write>(writer: &mut W, number: u128, moment: &Moment) -> io::Result<()>
    ensures { Sends result (W.contents writer.old) (W.contents writer.new) (counter_text number moment.now) }
{
    let mut first = Buffer::new();
    let mut second = Buffer::new();
    let mut third = Buffer::new();
    let mut fourth = Buffer::new();
    let number = first.format(number).as_bytes();
    let tokens = second.format(moment.tokens).as_bytes();
    let slots = third.format(moment.full_slots).as_bytes();
    let frames = fourth.format(moment.frames_out).as_bytes();
    send_all(
        writer,
        &[
            b"{\"ph\":\"C\",\"pid\":0,\"ts\":",
            number,
            b",\"name\":\"machine\",\"args\":{\"tokens\":",
            tokens,
            b",\"full slots\":",
            slots,
            b",\"frames out\":",
            frames,
            b"}},\n",
        ],
    )
}

/// Both objects of an event.
fn send_event<W: Write>(
    writer: &mut W,
    object: &Object<'_>,
    number: u128,
    event: &(u32, Token),
    moment: &Moment,
) -> io::Result<()>
    ensures { Sends result (W.contents writer.old) (W.contents writer.new) (event_objects object.now.code.program number event.now moment.now) }
{
    send_slice(writer, object, number, event, moment.deed)?;
    send_counter(writer, number, moment)
}

/// The objects of all events.
fn send_events<W: Write>(
    writer: &mut W,
    object: &Object<'_>,
    first: u64,
    events: &[(u32, Token)],
    moments: &[Moment],
) -> io::Result<()>
    ensures { Sends result (W.contents writer.old) (W.contents writer.new) (paired (event_objects object.now.code.program) first events.now moments.now) }
{
    for (place, event) in events.iter().enumerate() {
        let Some(moment) = moments.get(place) else {
            return Ok(());
        };
        send_event(
            writer,
            object,
            u128::from(first) + place as u128,
            event,
            moment,
        )?;
    }
    Ok(())
}

/// Writes the events in the Trace Event format, which trace viewers read: a lane for each element; a slice, one unit long,
/// for each event, in the lane of its element at its number, from `first` on; and counters of what the machine holds after it.
/// `moments` has what each of the events did: they go in pairs, and the shorter one ends it. The writer is called until it has
/// taken all of it; a call that takes no byte is a fault. After an `Err` a beginning of the text was written. Takes no memory.
pub fn write_chrome<W: Write>(
    writer: &mut W,
    object: &Object<'_>,
    elements: u32,
    first: u64,
    events: &[(u32, Token)],
    moments: &[Moment],
) -> io::Result<()>
    ensures { Sends result (W.contents writer.old) (W.contents writer.new) (chrome_text object.now.code.program elements first events.now moments.now) }
{
    send(writer, b"{\"traceEvents\":[\n")?;
    send_lanes(writer, elements)?;
    send_events(writer, object, first, events, moments)?;
    send(
        writer,
        b"{\"ph\":\"M\",\"pid\":0,\"name\":\"process_name\",\"args\":{\"name\":\"ets\"}}\n]}\n",
    )
}
