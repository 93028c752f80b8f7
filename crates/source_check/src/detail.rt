//! What is known of a fault beside its kind and its place.

use source::word::Word;
use source_tokens::{Detail, Head};

/// The head of the function with this name, if there is one.
fn head_of(words: &[Word<usize>], name: usize) -> Option<Head> {
    let mut found = None;
    for word in words {
        match (*word, found) {
            (Word::Function { name: other, .. }, None) if other == name => {
                found = Some(Head {
                    parameters: 0,
                    results: 1,
                });
            }
            (
                Word::Parameter { .. },
                Some(
                    Head {
                        parameters,
                        results,
                    },
                ),
            ) => {
                found = Some(Head {
                    parameters: parameters.saturating_add(1),
                    results,
                });
            }
            (Word::Results { number, .. }, Some(Head { parameters, .. })) => {
                found = Some(Head {
                    parameters,
                    results: number,
                });
            }
            (Word::Body { .. }, Some(_)) => return found,
            _ => (),
        }
    }
    found
}

/// Of which item a name is at this place, if one is.
pub(crate) fn detail_at(words: &[Word<usize>], place: usize) -> Option<Detail> {
    for word in words {
        match *word {
            Word::Cell { at, .. } if at == place => return Some(Detail::Array),
            Word::Callee { at, function } if at == place => {
                return Some(Detail::Function(head_of(words, function)));
            }
            _ => (),
        }
    }
    None
}
