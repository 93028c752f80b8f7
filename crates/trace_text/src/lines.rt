//! The lines of a trace.

ghost use Rattle.std.specs.Prelude.{◌≡◌};
ghost use Rattle.trace_text.specs.TraceText.{head_text, doing_text, columns_text, event_line, trace_text};
ghost use Rattle.sink.specs.Sends.{Sends};

use crate::columns::{deed_word, name_at, port_at, send_at, send_frame};
use crate::words::send_carried;
use itoa::Buffer;
use object_view::Object;
use replay::{Deed, Moment};
use sink::{send, send_all};
use std::io::{self, Write};
use tags::token::{To, Token};

/// The number of an event and its element.
fn send_head<W: Write>(writer: &mut W, number: u128, element: u32) -> io::Result<()>
    ensures { Sends result (W.contents writer.old) (W.contents writer.new) (head_text number element) }
{
    let mut first = Buffer::new();
    let mut second = Buffer::new();
    let number = first.format(number).as_bytes();
    let element = second.format(element).as_bytes();
    send_all(writer, &[b"event ", number, b" ", element])
}

/// What is done where a token goes.
fn send_doing<W: Write>(writer: &mut W, object: &Object<'_>, to: &To, deed: Deed) -> io::Result<()>
    ensures { Sends result (W.contents writer.old) (W.contents writer.new) (doing_text object.now.code.program to.now deed) }
{
    let name = name_at(object, to);
    let port = port_at(to);
    send_all(writer, &[b" ", name, b" ", port, b" ", deed_word(deed)])
}

/// Where a token goes and what is done there.
fn send_place<W: Write>(writer: &mut W, object: &Object<'_>, to: &To, deed: Deed) -> io::Result<()>
    ensures { Sends result (W.contents writer.old) (W.contents writer.new) (columns_text object.now.code.program to.now deed) }
{
    send_frame(writer, b" ", to)?;
    send_at(writer, b" ", object, to)?;
    send_doing(writer, object, to, deed)
}

/// The line of an event.
fn send_event<W: Write>(
    writer: &mut W,
    object: &Object<'_>,
    number: u128,
    event: &(u32, Token),
    moment: &Moment,
) -> io::Result<()>
    ensures { Sends result (W.contents writer.old) (W.contents writer.new) (event_line object.now.code.program number event.now moment.now) }
{
    send_head(writer, number, event.0)?;
    send_place(writer, object, &event.1.to, moment.deed)?;
    send(writer, b" ")?;
    send_carried(writer, &event.1)?;
    send(writer, b"\n")
}

/// Writes a line for each event: its number, from `first` on, and its element; where its token goes, what is done there and what it
/// did; and what the token carries. `moments` has what each of the events did: they go in pairs, and the shorter one ends it. The writer is
/// called until it has taken all of it; a call that takes no byte is a fault. After an `Err` a beginning of the text was
/// written. Takes no memory.
pub fn write_events<W: Write>(
    writer: &mut W,
    object: &Object<'_>,
    first: u64,
    events: &[(u32, Token)],
    moments: &[Moment],
) -> io::Result<()>
    ensures { Sends result (W.contents writer.old) (W.contents writer.new) (trace_text object.now.code.program first events.now moments.now) }
{
    for (place, event) in events.iter().enumerate() {
        let Some(moment) = moments.get(place) else {
            return Ok(());
        };
        send_event(
            writer,
            object,
            u128::from(first) + place as u128,
            event,
            moment,
        )?;
    }
    Ok(())
}
