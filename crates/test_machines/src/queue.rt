//! The queue of tokens.

use crate::part::{Heap, Part};
use crate::shown::push_token;
use crate::words::Words;
use packed::token::PackedToken;
use std::alloc::{AllocError, Global};
use std::collections::VecDeque;
use tags::token::{Port, To, Token, Word};
use tags::value::{FaultKind, Origin, Value};
use token_queue::queue::TokenQueue;

/// The token of this number.
fn token(number: u32) -> Token {
    let value = if number % 3 == 0 {
        Value::Fault {
            kind: FaultKind::Range,
            origin: Origin::Untold,
        }
    } else {
        Value::Int(-i64::from(number))
    };
    Token {
        to: To::Instr {
            frame: number,
            ip: number % 7,
            port: Port::Right,
        },
        word: Word::Val(value),
    }
}

/// A queue.
#[derive(Drop)]
pub struct QueuePart<'h> {
    queue: TokenQueue<Heap<'h>>,
}

/// Puts the token of this number in, where there is room for it and that many more.
fn put(queue: &mut TokenQueue<Heap<'_>>, number: u32, more: usize) -> Result<(), AllocError> {
    queue.reserve(more.checked_add(1).ok_or(AllocError)?)?;
    queue.push_packed(PackedToken::pack(token(number)));
    Ok(())
}

/// Takes the oldest token out, if there is one.
fn pop(queue: &mut TokenQueue<Heap<'_>>) -> Option<()> {
    if queue.len() == 0 {
        return None;
    }
    queue.pop_front();
    Some(())
}

/// Takes the token at this place out, if there is one.
fn remove(queue: &mut TokenQueue<Heap<'_>>, at: usize) -> Option<()> {
    if at >= queue.len() {
        return None;
    }
    queue.remove(at);
    Some(())
}

/// Says whether memory was refused.
fn done(outcome: Result<(), AllocError>, answer: &mut String) -> Option<()> {
    if outcome.is_err() {
        answer.push_str("no memory").ok()?;
    }
    Some(())
}

/// Writes the numbers of the tokens, and more of those that are not the tokens of these numbers.
fn push_all(queue: &TokenQueue<Heap<'_>>, answer: &mut String) -> Result<(), AllocError> {
    for at in 0..queue.len() {
        if at > 0 {
            answer.push(' ')?;
        }
        let held = queue.get(at);
        match held.to {
            To::Instr { frame, .. } if held == token(frame) => write!(answer, "{frame}")?,
            _ => push_token(answer, held)?,
        }
    }
    Ok(())
}

/// Whether the queue has the tokens of these numbers in this order.
fn has(queue: &TokenQueue<Heap<'_>>, numbers: &VecDeque<u32>) -> bool {
    if queue.len() != numbers.len() {
        return false;
    }
    for at in 0..queue.len() {
        if queue.get(at) != token(numbers[at]) {
            return false;
        }
    }
    true
}

/// Makes one step of a walk: as the choice says, a token is put in or taken out, of the queue and of the numbers.
fn walk_on(
    queue: &mut TokenQueue<Heap<'_>>,
    numbers: &mut VecDeque<u32>,
    number: u32,
    choice: u32,
) -> Option<()> {
    // More tokens for 200 steps, and fewer for 200.
    let grows = number / 200 % 2 == 0;
    if choice % 4 == 0 || (grows && choice % 4 != 1) {
        put(queue, number, (choice / 4 % 5) as usize).ok()?;
        numbers.push_back(number).ok()?;
    } else if queue.len() > 0 {
        if choice % 8 < 4 {
            pop(queue)?;
            let _ = numbers.pop_front();
        } else {
            let at = choice as usize % queue.len();
            remove(queue, at)?;
            let _ = numbers.remove(at);
        }
    }
    Some(())
}

/// Makes a pseudorandom walk, and says whether the queue does what a deque of the tokens' numbers does.
fn walk(
    queue: &mut TokenQueue<Heap<'_>>,
    alloc: Global,
    steps: u32,
    answer: &mut String,
) -> Option<()> {
    let mut numbers = VecDeque::new(alloc);
    let mut pick = 1u32;
    for number in 0..steps {
        pick = pick.wrapping_mul(1_664_525).wrapping_add(1_013_904_223);
        walk_on(queue, &mut numbers, number, pick >> 24)?;
        if !has(queue, &numbers) {
            return write!(answer, "another at step {number}").ok();
        }
    }
    answer.push_str("as a deque").ok()
}

impl<'h> QueuePart<'h> {
    pub fn new(heap: Heap<'h>) -> QueuePart<'h> {
        QueuePart {
            queue: TokenQueue::new(heap),
        }
    }
}

impl Part for QueuePart<'_> {
    fn act(&mut self, words: &mut Words<'_>, answer: &mut String) -> Option<()> {
        let queue = &mut self.queue;
        match words.word() {
            "reserve" => done(queue.reserve(words.place()?), answer),
            "push" => done(put(queue, words.number()?, 0), answer),
            "pop" => pop(queue),
            "remove" => remove(queue, words.place()?),
            "length" => {
                let length = queue.len();
                write!(answer, "{length}").ok()
            }
            "get" => {
                let at = words.place()?;
                if at >= queue.len() {
                    return None;
                }
                push_token(answer, queue.get(at)).ok()
            }
            "walk" => {
                let alloc = *answer.allocator();
                walk(queue, alloc, words.number()?, answer)
            }
            "all" => push_all(queue, answer).ok(),
            _ => None,
        }
    }
}
