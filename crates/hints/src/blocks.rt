//! The blocks of a graph, in its text, each line of which is in order.

use crate::lines::{is, is_line_feed, text_at};

#[derive(Clone, Copy)]
pub struct Block<'a> {
    /// The number of its first line, from 1.
    pub line: u64,
    pub name: &'a str,
    pub inputs: u64,
}

/// Whether a line of the text is that of a loop of the block with this name.
fn is_looped(text: &[u8], name: &str) -> bool {
    for line in text.split(is_line_feed) {
        if is(text_at(line, 1), "loop") && is(text_at(line, 2), name) {
            return true;
        }
    }
    false
}

impl<'a> Block<'a> {
    /// Block number `skipped` of the text, of those with this name if one is given.
    pub fn of(text: &'a [u8], name: Option<&str>, skipped: u64) -> Option<Block<'a>> {
        let mut left = skipped;
        for (place, line) in text.split(is_line_feed).enumerate() {
            let own = text_at(line, 1);
            if !is(text_at(line, 0), "block") || !is(own, name.unwrap_or(own)) {
                continue;
            }
            if left == 0 {
                return Some(Block {
                    line: (place as u64).saturating_add(1),
                    name: own,
                    inputs: text_at(line, 2).parse().unwrap_or(0),
                });
            }
            left = left.saturating_sub(1);
        }
        None
    }

    /// Block number `skipped` of those that some loop names.
    pub fn looped(text: &'a [u8], skipped: u64) -> Option<Block<'a>> {
        let mut left = skipped;
        for place in 0..256u64 {
            let block = Block::of(text, None, place)?;
            let is_looped = is_looped(text, block.name);
            if is_looped && left == 0 {
                return Some(block);
            }
            left = left.saturating_sub(u64::from(is_looped));
        }
        None
    }
}
