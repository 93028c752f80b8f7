//! The frame manager.

use crate::part::{Heap, Part};
use crate::shown::push_cont;
use crate::words::Words;
use frame_manager::{Manager, NotOut};
use std::alloc::AllocError;
use tags::token::{Cont, FrameId};

/// A frame manager.
#[derive(Drop)]
pub struct FramesPart<'h> {
    manager: Manager<Heap<'h>>,
}

impl<'h> FramesPart<'h> {
    /// The manager of so many frames. `None` where there is no frame or no memory.
    pub fn new(heap: Heap<'h>, frames: u32) -> Option<FramesPart<'h>> {
        if frames == 0 {
            return None;
        }
        match Manager::new(heap, frames) {
            Ok(manager) => Some(FramesPart { manager }),
            Err(_refused) => None,
        }
    }
}

fn push_requested(
    answer: &mut String,
    requested: Result<Option<FrameId>, AllocError>,
) -> Result<(), AllocError> {
    match requested {
        Ok(Some(frame)) => write!(answer, "frame {frame}"),
        Ok(None) => answer.push_str("waits"),
        Err(_refused) => answer.push_str("no memory"),
    }
}

fn push_released(
    answer: &mut String,
    released: Result<Option<(Cont, FrameId)>, NotOut>,
) -> Result<(), AllocError> {
    match released {
        Ok(Some((cont, frame))) => {
            write!(answer, "frame {frame} for ")?;
            push_cont(answer, cont)
        }
        Ok(None) => answer.push_str("free"),
        Err(NotOut) => answer.push_str("not out"),
    }
}

/// Requests the frames of these numbers, one after another. Says which is the first that is not handed out in this order.
fn request_in_order(
    manager: &mut Manager<Heap<'_>>,
    answer: &mut String,
    first: u32,
    last: u32,
) -> Result<(), AllocError> {
    for frame in first..=last {
        let requested = manager.request(Cont::Host { port: 0 })?;
        if requested != Some(frame) {
            return write!(answer, "not {frame}");
        }
    }
    answer.push_str("in order")
}

impl Part for FramesPart<'_> {
    fn act(&mut self, words: &mut Words<'_>, answer: &mut String) -> Option<()> {
        let manager = &mut self.manager;
        match words.word() {
            "request" => push_requested(answer, manager.request(words.cont()?)).ok(),
            "request-within" => {
                push_requested(answer, manager.request_within(words.cont()?)).ok()
            }
            "requests" => {
                let first = words.number()?;
                let last = words.number()?;
                request_in_order(manager, answer, first, last).ok()
            }
            "release" => push_released(answer, manager.release(words.number()?)).ok(),
            "out" => {
                let out = manager.out();
                write!(answer, "{out}").ok()
            }
            "waiting" => {
                let waiting = manager.waiting();
                write!(answer, "{waiting}").ok()
            }
            _ => None,
        }
    }
}
