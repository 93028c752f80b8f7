//! The object of a text.

ghost use Rattle.std.specs.Prelude.{◌≡◌};
ghost use Rattle.graph_file.specs.Lines.{parts};
ghost use Rattle.sink.specs.Sends.{Sends};
ghost use Rattle.json_text.specs.Json.{comma, first_joint, is_last, is_whole, item_joint, joint, json_of, list_begin, lines_text, list_close, nothing_open, object_end, object_text, open_after, order_joint, read_text};
ghost use Rattle.json_text.specs.Json.{report_begin, report_end, whole_end, whole_text, with_key};

use crate::form::{Form, read_line};
use crate::slot::send_filled;
use crate::string::send_string;
use graph_file::Parts;
use sink::{send, send_all};
use std::io::{self, Write};
use std::marker::Model;

/// The object so far.
#[derive(Drop)]
struct Object {
    /// The key of the list that is open, or none.
    list: &'static [u8],
    is_empty: bool,
    /// Whether it is a report in a list of reports.
    is_nested: bool,
}

impl Model for Object {
    ghost use Rattle.json_text.specs.Json.{Object};

    ghost Value = { Object };

    ghost view = { λ o. record { list = o.list.now; is_empty = o.is_empty; is_nested = o.is_nested } };
}

/// The text, where there is a key.
fn with_key(key: &[u8], text: &'static [u8]) -> &'static [u8]
    ensures { result.now ≡ with_key key.now text.now }
{
    match key {
        [] => b"",
        _ => text,
    }
}

/// What is before the next key.
fn comma(is_empty: bool) -> &'static [u8]
    ensures { result.now ≡ comma is_empty }
{
    if is_empty { b"" } else { b"," }
}

/// Writes the beginning of the list with this key, if there is one.
fn begin_list<W: Write>(writer: &mut W, list: &[u8]) -> io::Result<()>
    ensures { Sends result (W.contents writer.old) (W.contents writer.new) (list_begin list.now) }
{
    match list {
        [] => send(writer, b""),
        _ => send_all(writer, &[b"\"", list, b"\":["]),
    }
}

/// The end of a report in the list of reports, if there is one.
fn report_end(is_nested: bool) -> &'static [u8]
    ensures { result.now ≡ report_end is_nested }
{
    if is_nested { b"}" } else { b"" }
}

/// The beginning of the next report there.
fn report_begin(is_nested: bool) -> &'static [u8]
    ensures { result.now ≡ report_begin is_nested }
{
    if is_nested { b"{" } else { b"\"reports\":[{" }
}

/// The end of all.
fn whole_end(is_nested: bool) -> &'static [u8]
    ensures { result.now ≡ whole_end is_nested }
{
    if is_nested { b"}]}\n" } else { b"}\n" }
}

impl Object {
    /// An object without a key.
    fn new() -> Object
        ensures { result ≡ nothing_open }
    {
        Object {
            list: b"",
            is_empty: true,
            is_nested: false,
        }
    }

    /// The object after a line of this form.
    fn after(self, form: Form) -> Object
        ensures { result ≡ open_after self form }
    {
        Object {
            list: form.list(),
            is_empty: false,
            is_nested: self.is_nested || form.is_order(),
        }
    }

    /// Writes the end of the list that is open, and what is before the next key.
    fn close_list<W: Write>(&self, writer: &mut W) -> io::Result<()>
        ensures { Sends result (W.contents writer.old) (W.contents writer.new) (list_close self.now) }
    {
        send_all(writer, &[with_key(self.list, b"]"), comma(self.is_empty)])
    }

    /// Writes what stands before the first item of the list with this key, or before a key.
    fn begin_item<W: Write>(&self, writer: &mut W, list: &[u8]) -> io::Result<()>
        ensures { Sends result (W.contents writer.old) (W.contents writer.new) (first_joint self.now list.now) }
    {
        self.close_list(writer)?;
        begin_list(writer, list)
    }

    /// Writes what stands before an item of the list with this key, or before a key.
    fn join_item<W: Write>(&self, writer: &mut W, list: &[u8]) -> io::Result<()>
        ensures { Sends result (W.contents writer.old) (W.contents writer.new) (item_joint self.now list.now) }
    {
        if !list.is_empty() && self.list == list {
            send(writer, b",")
        } else {
            self.begin_item(writer, list)
        }
    }

    /// Writes what stands before a report in the list of reports.
    fn join_order<W: Write>(&self, writer: &mut W) -> io::Result<()>
        ensures { Sends result (W.contents writer.old) (W.contents writer.new) (order_joint self.now) }
    {
        send_all(
            writer,
            &[
                with_key(self.list, b"]"),
                report_end(self.is_nested),
                comma(self.is_empty),
                report_begin(self.is_nested),
            ],
        )
    }

    /// Writes what stands before a line of this form.
    fn join<W: Write>(&self, writer: &mut W, form: Form) -> io::Result<()>
        ensures { Sends result (W.contents writer.old) (W.contents writer.new) (joint self.now form) }
    {
        if form.is_order() {
            self.join_order(writer)
        } else {
            self.join_item(writer, form.list())
        }
    }

    /// Writes the end of the object.
    fn end<W: Write>(&self, writer: &mut W) -> io::Result<()>
        ensures { Sends result (W.contents writer.old) (W.contents writer.new) (object_end self.now) }
    {
        send_all(
            writer,
            &[with_key(self.list, b"]"), whole_end(self.is_nested)],
        )
    }
}

/// Writes what the line with this form and these words becomes.
fn send_read<W: Write>(writer: &mut W, object: &Object, form: Form, words: &[u8]) -> io::Result<()>
    ensures { Sends result (W.contents writer.old) (W.contents writer.new) (read_text object.now (form, words.now)) }
{
    object.join(writer, form)?;
    send_filled(writer, form.template(), words)
}

/// Whether there is nothing after the last line feed.
fn is_last(line: &[u8], rest: &Parts<'_>) -> bool
    ensures { result ≡ is_last line.now rest.now }
{
    line.is_empty() && rest.has(0)
}

/// Writes the keys of the lines, and the object's end.
fn send_lines<W: Write>(writer: &mut W, text: &[u8]) -> io::Result<()>
    ensures { Sends result (W.contents writer.old) (W.contents writer.new) (lines_text nothing_open (parts 10 text.now)) }
{
    let mut lines = Parts::of(text, b'\n');
    let mut object = Object::new();
    while let Some((line, rest)) = lines.split_first() {
        if is_last(line, &rest) {
            return object.end(writer);
        }
        let (form, words) = read_line(line);
        send_read(writer, &object, form, words)?;
        object = object.after(form);
        lines = rest;
    }
    object.end(writer)
}

/// Whether the text is a graph or a picture.
fn is_whole(text: &[u8]) -> bool
    ensures { result ≡ is_whole text.now }
{
    text.starts_with(b"etsgraph ") || text.starts_with(b"<")
}

/// Writes the object of a text that is one string.
fn send_whole<W: Write>(writer: &mut W, text: &[u8]) -> io::Result<()>
    ensures { Sends result (W.contents writer.old) (W.contents writer.new) (whole_text text.now) }
{
    send(writer, b"{\"text\":")?;
    send_string(writer, text)?;
    send(writer, b"}\n")
}

/// Writes the object of a text of lines.
fn send_object<W: Write>(writer: &mut W, text: &[u8]) -> io::Result<()>
    ensures { Sends result (W.contents writer.old) (W.contents writer.new) (object_text text.now) }
{
    send(writer, b"{")?;
    send_lines(writer, text)
}

/// Writes the JSON of a text that a command prints: one object on a line of its own. After an `Err` a beginning of it was written. Takes no
/// memory.
pub fn write_json<W: Write>(writer: &mut W, text: &[u8]) -> io::Result<()>
    ensures { Sends result (W.contents writer.old) (W.contents writer.new) (json_of text.now) }
{
    if is_whole(text) {
        send_whole(writer, text)
    } else {
        send_object(writer, text)
    }
}
