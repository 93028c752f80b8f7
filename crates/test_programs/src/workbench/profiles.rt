//! Profiles, as lines and as pictures.

use crate::lines::{count, number, sum};
use crate::workbench::STEPS;
use crate::workbench::traces::Traced;
use std::alloc::Global;
use std::sync::Wait;
use std::thread::Threads;
use test_served::answer;

/// Whether each row has room for the events: rounds times elements are at least as many.
fn has_room(profile: &[u8], events: u64) -> bool {
    for line in profile.split(|byte| *byte == b'\n') {
        if line.starts_with(b"elements ")
            && number(line, 1).wrapping_mul(number(line, 3)) < events
        {
            return false;
        }
    }
    true
}

/// Whether the text is one element of XML: tags are closed in order, and no `<` or `"` is left open.
pub fn is_well_formed(picture: &[u8]) -> bool {
    let mut depth = 0u64;
    let mut elements = 0u64;
    for part in picture.split(|byte| *byte == b'<').skip(1) {
        let Some(end) = part.iter().position(|byte| *byte == b'>') else {
            return false;
        };
        let (tag, _text) = part.split_at(end);
        if count_of(tag, b'"') % 2 != 0 {
            return false;
        }
        if tag.starts_with(b"/") {
            if depth == 0 {
                return false;
            }
            depth = depth.wrapping_sub(1);
        } else if !tag.ends_with(b"/") {
            depth = depth.wrapping_add(1);
        }
        elements = elements.wrapping_add(1);
    }
    depth == 0 && elements > 0
}

fn count_of(text: &[u8], wanted: u8) -> u64 {
    let mut found = 0u64;
    for byte in text {
        if *byte == wanted {
            found = found.wrapping_add(1);
        }
    }
    found
}

/// How many numbers the list has.
fn rows_of(sizes: &str) -> u64 {
    count_of(sizes.as_bytes(), b',').wrapping_add(1)
}

/// What is wrong with the profiles of the graph on its inputs, whose run was traced, with a row for each of the numbers of elements
/// that `sizes` lists; or how many waves there are.
pub fn look<R: Threads + Wait + Sync>(
    rt: &R,
    alloc: Global,
    input: &[u8],
    traced: &Traced,
    sizes: &str,
) -> Result<u64, &'static str> {
    let rows = ["ets", "profile", "--steps", STEPS, "--elements", sizes];
    let profile = answer(rt, alloc, &rows, input);
    let drawing = ["ets", "profile", "--steps", STEPS, "--svg"];
    let picture = answer(rt, alloc, &drawing, input);
    if profile.status != picture.status {
        return Err("a picture has another status than its profile");
    }
    let work = sum(&profile.text, b"work ", 1);
    if sum(&profile.text, b"wave ", 2) != work {
        return Err("the waves are not the work");
    }
    let waves = count(&profile.text, b"wave ");
    if sum(&profile.text, b"span ", 1) != waves {
        return Err("the span is not the number of waves");
    }
    if count(&profile.text, b"elements ") != rows_of(sizes) {
        return Err("a row is missing");
    }
    if traced.status == 0 && !has_room(&profile.text, traced.events) {
        return Err("a row has no room for its events");
    }
    if !is_well_formed(&picture.text) {
        return Err("a picture is not well formed");
    }
    Ok(waves)
}
