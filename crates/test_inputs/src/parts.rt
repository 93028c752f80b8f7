//! The words of a program that tests in several parts: the names of parts, and after each name the words of that part.

use std::alloc::{AllocError, Global};

/// A part that is named, and its words.
#[derive(Clone, Copy)]
pub struct Named<'a> {
    pub name: &'a str,
    pub words: &'a [String],
}

/// Whether the word is one of these names.
fn is_name(word: &str, names: &[&str]) -> bool {
    names.iter().any(|name| *name == word)
}

/// The words after word `place`, up to the next name.
fn words_after<'a>(words: &'a [String], place: usize, names: &[&str]) -> &'a [String] {
    let after = words.get(place.wrapping_add(1)..).unwrap_or(&[]);
    let end = after
        .iter()
        .position(|word| is_name(word.as_str(), names))
        .unwrap_or(after.len());
    after.get(..end).unwrap_or(after)
}

/// The parts that the words of a command line name, in their order. What is before the first name is left out.
pub fn named_parts<'a>(
    alloc: Global,
    words: &'a [String],
    names: &[&str],
) -> Result<Vec<Named<'a>>, AllocError> {
    let mut parts = Vec::new(alloc);
    for (place, word) in words.iter().enumerate() {
        if is_name(word.as_str(), names) {
            parts.push(Named {
                name: word.as_str(),
                words: words_after(words, place, names),
            })?;
        }
    }
    Ok(parts)
}
