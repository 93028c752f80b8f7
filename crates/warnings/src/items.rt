//! Arrays and functions that nothing uses.

use crate::{Kind, Warning};
use graph::Name;
use source::word::Word;
use std::alloc::{AllocError, Allocator};

/// An array or a function, and whether it is used.
#[derive(Clone, Copy)]
struct Item {
    warning: Warning,
    is_used: bool,
}

/// The array or the function that begins with this word. The function `main` is always used.
fn item_of(names: &[Name<'_>], word: Word<usize>) -> Option<Item> {
    let warning = match word {
        Word::Array { at, name } => Warning {
            kind: Kind::Array,
            name,
            at,
        },
        Word::Function { at, name } => Warning {
            kind: Kind::Function,
            name,
            at,
        },
        _ => return None,
    };
    let is_main = names
        .get(warning.name)
        .is_some_and(|name| name.bytes == b"main".as_slice());
    Some(Item {
        warning,
        is_used: is_main,
    })
}

/// The array or the function that this word uses.
fn used_by(word: Word<usize>) -> Option<usize> {
    match word {
        Word::Cell { array, .. } => Some(array),
        Word::Callee { function, .. } => Some(function),
        _ => None,
    }
}

/// Adds a warning of each array and each function that no word uses.
pub(crate) fn add_unused_items<A: Allocator + Clone>(
    alloc: &A,
    names: &[Name<'_>],
    words: &[Word<usize>],
    warnings: &mut Vec<Warning, A>,
) -> Result<(), AllocError> {
    let mut items: Vec<Item, A> = Vec::new(alloc.clone()?);
    for word in words {
        if let Some(item) = item_of(names, *word) {
            items.push(item)?;
        }
    }
    for word in words {
        let Some(name) = used_by(*word) else {
            continue;
        };
        for item in items.iter_mut() {
            if item.warning.name == name {
                item.is_used = true;
            }
        }
    }
    for item in items.iter() {
        if !item.is_used {
            warnings.push(item.warning)?;
        }
    }
    Ok(())
}
