//! The objects that scripts name.

use test_inputs::objects::{ADD, CALL, FETCHES, LOOP, READERS, STORES, STUCK};

/// The object of this name.
pub fn object_named(name: &str) -> Option<&'static [u8]> {
    match name {
        "add" => Some(ADD),
        "call" => Some(CALL),
        "fetches" => Some(FETCHES),
        "loop" => Some(LOOP),
        "readers" => Some(READERS),
        "stores" => Some(STORES),
        "stuck" => Some(STUCK),
        _ => None,
    }
}
