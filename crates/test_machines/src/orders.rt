//! The order of the blocks of free-running elements.

use crate::part::{Heap, Part};
use crate::shown::push_token;
use crate::words::Words;
use ordering::log::{BlockLog, Counts};
use ordering::order;
use std::alloc::{AllocError, Allocator, Global};
use tags::token::{Port, To, Token, Word};
use tags::value::Value;

/// A block of an element: the tokens that its events took, how many of them it spent, and the tokens that it made.
#[derive(Drop)]
struct Block {
    element: usize,
    spent: usize,
    taken: Vec<Token>,
    made: Vec<Token>,
}

/// The blocks of some elements, and the tokens that were there before them.
#[derive(Drop)]
pub struct OrderPart<'h> {
    heap: Heap<'h>,
    elements: usize,
    opening: Vec<Token>,
    blocks: Vec<Block>,
}

impl<'h> OrderPart<'h> {
    pub fn new(heap: Heap<'h>, alloc: Global, elements: usize) -> OrderPart<'h> {
        OrderPart {
            heap,
            elements,
            opening: Vec::new(alloc),
            blocks: Vec::new(alloc),
        }
    }
}

/// The token with this number for a frame.
fn token(frame: u32, number: i64) -> Token {
    Token {
        to: To::Instr {
            frame,
            ip: 0,
            port: Port::Left,
        },
        word: Word::Val(Value::Int(number)),
    }
}

/// Puts the token after the others that a word gives by a frame and a number with a dot between them.
fn put_token<A: Allocator>(tokens: &mut Vec<Token, A>, word: &str) -> Option<()> {
    let (frame, number) = word.split_once('.')?;
    let frame = frame.parse().ok()?;
    let number = number.parse().ok()?;
    tokens.push(token(frame, number)).ok()
}

/// The tokens that these words give.
fn tokens_of(alloc: Global, words: Words<'_>) -> Option<Vec<Token>> {
    let mut tokens = Vec::new(alloc);
    if words.is_over() {
        return Some(tokens);
    }
    for word in words.rest().split(' ') {
        put_token(&mut tokens, word)?;
    }
    Some(tokens)
}

/// The block that these words give: its element, how many tokens it spent, those that it took, and those that it made.
fn block_of(alloc: Global, words: &mut Words<'_>) -> Option<Block> {
    let mut counts = words.piece();
    Some(Block {
        element: counts.place()?,
        spent: counts.place()?,
        taken: tokens_of(alloc, words.piece())?,
        made: tokens_of(alloc, words.piece())?,
    })
}

/// Notes a block.
fn note(log: &mut BlockLog<Heap<'_>>, block: &Block) -> Result<(), AllocError> {
    for token in block.taken.as_slice() {
        log.reserve(1, 0, 0)?;
        log.note_event(*token);
    }
    for token in block.made.as_slice() {
        log.reserve(0, 1, 0)?;
        log.note_made(*token);
    }
    log.reserve(0, 0, 1)?;
    log.end_block(Counts {
        events: block.taken.len(),
        spent: block.spent,
        made: block.made.len(),
    });
    Ok(())
}

/// The log of an element.
fn log_of<'h>(
    heap: Heap<'h>,
    blocks: &[Block],
    element: usize,
) -> Result<BlockLog<Heap<'h>>, AllocError> {
    let mut log = BlockLog::new(heap)?;
    for block in blocks {
        if block.element == element {
            note(&mut log, block)?;
        }
    }
    Ok(log)
}

/// The events of all blocks in one order.
fn ordered<'h>(part: &OrderPart<'h>) -> Result<Vec<(u32, Token), Heap<'h>>, AllocError> {
    let heap = part.heap;
    let mut logs = Vec::new(heap);
    for element in 0..part.elements {
        logs.push(log_of(heap, &part.blocks, element)?)?;
    }
    if logs.len() >= 16 {
        return Err(AllocError);
    }
    order(&logs, &part.opening, heap)
}

/// Writes events, each with its element and the token that it took.
fn push_events(answer: &mut String, events: &[(u32, Token)]) -> Result<(), AllocError> {
    for (element, token) in events {
        if !answer.is_empty() {
            answer.push_str(", ")?;
        }
        write!(answer, "{element} takes ")?;
        push_token(answer, *token)?;
    }
    Ok(())
}

impl Part for OrderPart<'_> {
    fn act(&mut self, words: &mut Words<'_>, answer: &mut String) -> Option<()> {
        let alloc = *answer.allocator();
        match words.word() {
            "block" => self.blocks.push(block_of(alloc, words)?).ok(),
            "opening" => {
                self.opening = tokens_of(alloc, *words)?;
                Some(())
            }
            "order" => match ordered(self) {
                Ok(events) => push_events(answer, &events).ok(),
                Err(AllocError) => answer.push_str("no memory").ok(),
            },
            _ => None,
        }
    }
}
