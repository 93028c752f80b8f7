//! The picture of a profile, in SVG 1.1.

ghost use Rattle.std.specs.Prelude.{◌≡◌, ◌≢◌, [], codes, length};
ghost use Rattle.oracle.specs.Waves.{work};
ghost use Rattle.profile_text.specs.Picture.{greatest, waves_a_bar, bar_count, height, bar_text, bars_from, bars_text, open_text, sizes_text};
ghost use Rattle.profile_text.specs.Picture.{decimals_text, ratio_text, legend_text, label_text, labels_text, field_text, svg_text};
ghost use Rattle.sink.specs.Sends.{Sends};

use crate::numbers::{
    Decimals, count_bars, greatest_of, parallelism_of, size_of_bar, split, work_of,
};
use itoa::Buffer;
use sink::{send, send_all};
use std::io::{self, Write};

/// The ground, the axes, what they are called, and the beginning of the legend.
fn send_open<W: Write>(writer: &mut W) -> io::Result<()>
    ensures { Sends result (W.contents writer.old) (W.contents writer.new) open_text }
{
    send(
        writer,
        b"<svg xmlns=\"http://www.w3.org/2000/svg\" version=\"1.1\" width=\"900\" height=\"400\" viewBox=\"0 0 900 400\" font-family=\"sans-serif\" font-size=\"14\">\n<rect width=\"900\" height=\"400\" fill=\"white\"/>\n<path d=\"M70 40V340H870\" fill=\"none\" stroke=\"black\"/>\n<text x=\"62\" y=\"345\" text-anchor=\"end\">0</text>\n<text x=\"70\" y=\"360\">1</text>\n<text x=\"20\" y=\"190\" text-anchor=\"middle\" transform=\"rotate(-90 20 190)\">activities</text>\n<text x=\"70\" y=\"24\">",
    )
}

/// The work and the span.
fn send_sizes<W: Write>(writer: &mut W, work: u128, span: usize) -> io::Result<()>
    ensures { Sends result (W.contents writer.old) (W.contents writer.new) (sizes_text work span) }
{
    let mut first = Buffer::new();
    let mut second = Buffer::new();
    let work = first.format(work).as_bytes();
    let span = second.format(span).as_bytes();
    send_all(writer, &[b"work ", work, b", span ", span])
}

/// A number with two decimals, between words.
fn send_decimals<W: Write>(
    writer: &mut W,
    before: &[u8],
    number: Decimals,
    behind: &[u8],
) -> io::Result<()>
    ensures { Sends result (W.contents writer.old) (W.contents writer.new) (decimals_text before.now number.whole number.hundredths behind.now) }
{
    let mut first = Buffer::new();
    let mut second = Buffer::new();
    let mut third = Buffer::new();
    let whole = first.format(number.whole).as_bytes();
    let tens = second.format(number.hundredths / 10).as_bytes();
    let ones = third.format(number.hundredths % 10).as_bytes();
    send_all(writer, &[before, whole, b".", tens, ones, behind])
}

/// The parallelism.
fn send_ratio<W: Write>(writer: &mut W, work: u128, span: usize) -> io::Result<()>
    ensures { Sends result (W.contents writer.old) (W.contents writer.new) (ratio_text work span) }
{
    let parallelism = parallelism_of(work, span);
    send_decimals(writer, b", parallelism ", parallelism, b"</text>\n")
}

/// The legend.
fn send_legend<W: Write>(writer: &mut W, work: u128, span: usize) -> io::Result<()>
    ensures { Sends result (W.contents writer.old) (W.contents writer.new) (legend_text work span) }
{
    send_sizes(writer, work, span)?;
    send_ratio(writer, work, span)
}

/// A number at a place, and words after it.
fn send_label<W: Write>(writer: &mut W, place: &[u8], number: u64, words: &[u8]) -> io::Result<()>
    ensures { Sends result (W.contents writer.old) (W.contents writer.new) (label_text place.now number words.now) }
{
    let mut digits = Buffer::new();
    let number = digits.format(number).as_bytes();
    send_all(
        writer,
        &[b"<text ", place, b">", number, words, b"</text>\n"],
    )
}

/// The greatest number.
fn send_top<W: Write>(writer: &mut W, top: u64) -> io::Result<()>
    ensures { Sends result (W.contents writer.old) (W.contents writer.new) (label_text (codes "x=\"62\" y=\"45\" text-anchor=\"end\"") top []) }
{
    send_label(writer, b"x=\"62\" y=\"45\" text-anchor=\"end\"", top, b"")
}

/// The last wave.
fn send_last<W: Write>(writer: &mut W, span: u64) -> io::Result<()>
    ensures { Sends result (W.contents writer.old) (W.contents writer.new) (label_text (codes "x=\"870\" y=\"360\" text-anchor=\"end\"") span []) }
{
    send_label(
        writer,
        b"x=\"870\" y=\"360\" text-anchor=\"end\"",
        span,
        b"",
    )
}

/// How many waves a bar has.
fn send_size<W: Write>(writer: &mut W, size: u64) -> io::Result<()>
    ensures { Sends result (W.contents writer.old) (W.contents writer.new) (label_text (codes "x=\"470\" y=\"385\" text-anchor=\"middle\"") size
        (codes " wave(s) a bar")) }
{
    send_label(
        writer,
        b"x=\"470\" y=\"385\" text-anchor=\"middle\"",
        size,
        b" wave(s) a bar",
    )
}

/// The numbers at the axes.
fn send_labels<W: Write>(writer: &mut W, top: u64, span: u64, size: u64) -> io::Result<()>
    ensures { Sends result (W.contents writer.old) (W.contents writer.new) (labels_text top span size) }
{
    send_top(writer, top)?;
    send_last(writer, span)?;
    send_size(writer, size)
}

/// How high a bar is that shows a number where the greatest of all is `top`.
fn height_of(number: u64, top: u64) -> u128
    ensures { result ≡ height number top }
{
    if top == 0 {
        return 0;
    }
    300 * u128::from(number) / u128::from(top)
}

/// A bar, one of `bars`, that shows a number where the greatest of all is `top`.
fn send_bar<W: Write>(
    writer: &mut W,
    bars: usize,
    place: usize,
    number: u64,
    top: u64,
) -> io::Result<()>
    requires { bars ≢ 0 }
    ensures { Sends result (W.contents writer.old) (W.contents writer.new) (bar_text bars place number top) }
{
    let mut first = Buffer::new();
    let mut second = Buffer::new();
    let mut third = Buffer::new();
    let bars = bars as u128;
    let left = first.format(800 * place as u128 / bars).as_bytes();
    let width = second.format((799 + bars) / bars).as_bytes();
    let height = third.format(height_of(number, top)).as_bytes();
    send_all(
        writer,
        &[
            b"<rect x=\"",
            left,
            b"\" width=\"",
            width,
            b"\" height=\"",
            height,
            b"\"/>\n",
        ],
    )
}

/// The beginning of the bars' field, which is flipped.
fn send_ground<W: Write>(writer: &mut W) -> io::Result<()>
    ensures { Sends result (W.contents writer.old) (W.contents writer.new) (codes "<g transform=\"translate(70 340) scale(1 -1)\" fill=\"steelblue\">\n") }
{
    send(
        writer,
        b"<g transform=\"translate(70 340) scale(1 -1)\" fill=\"steelblue\">\n",
    )
}

/// All bars.
fn send_bars<W: Write>(writer: &mut W, counts: &[u64]) -> io::Result<()>
    ensures { Sends result (W.contents writer.old) (W.contents writer.new) (bars_text counts.now) }
{
    let bars = count_bars(counts.len());
    let size = size_of_bar(counts.len());
    let top = greatest_of(counts);
    let mut rest = counts;
    for place in 0..bars {
        let (group, behind) = split(rest, size);
        send_bar(writer, bars, place, greatest_of(group), top)?;
        rest = behind;
    }
    Ok(())
}

/// The field of the bars.
fn send_field<W: Write>(writer: &mut W, counts: &[u64]) -> io::Result<()>
    ensures { Sends result (W.contents writer.old) (W.contents writer.new) (field_text counts.now) }
{
    send_ground(writer)?;
    send_bars(writer, counts)?;
    send(writer, b"</g>\n</svg>\n")
}

/// Writes the picture of the waves, in SVG 1.1: a bar for each wave, as high as it has activities, or for neighbours where there
/// are more than 400 waves, as high as the greatest of them; axes with their numbers; and a legend with the work, the span
/// and the parallelism. The writer is called until it has taken all of it; a call that takes no byte is a fault. After an
/// `Err` a beginning of the text was written. Takes no memory.
pub fn write_svg<W: Write>(writer: &mut W, counts: &[u64]) -> io::Result<()>
    ensures { Sends result (W.contents writer.old) (W.contents writer.new) (svg_text counts.now) }
{
    let work = work_of(counts);
    let top = greatest_of(counts);
    let size = size_of_bar(counts.len());
    send_open(writer)?;
    send_legend(writer, work, counts.len())?;
    send_labels(writer, top, counts.len() as u64, size as u64)?;
    send_field(writer, counts)
}
