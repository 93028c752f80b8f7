//! Why a field of a line, or an input, is not what is wanted there.

use crate::catalog::Text;
use crate::lines::{is, text_of};
use graph_file::number;

fn is_name_byte(byte: &u8) -> bool {
    byte.is_ascii_alphanumeric() || *byte == b'_'
}

fn are_digits(bytes: &[u8]) -> bool {
    !bytes.is_empty() && bytes.iter().all(u8::is_ascii_digit)
}

/// What is wrong where digits are to be: these are none, or have a leading zero, or are too large.
fn digits_fault(digits: &[u8], none: Text, large: Text) -> Text {
    if !are_digits(digits) {
        none
    } else if digits.len() > 1 && digits.starts_with(b"0") {
        "`$p` has a leading zero"
    } else {
        large
    }
}

/// Why the field is no number.
pub fn number_fault(field: &[u8]) -> Text {
    digits_fault(field, "digits", "`$p` is above 4294967295")
}

/// Why the field is no literal.
pub fn literal_fault(field: &[u8]) -> Text {
    let digits = field.strip_prefix(b"-".as_slice()).unwrap_or(field);
    if is(text_of(field), "-0") {
        return "`$p` is written `0`";
    }
    digits_fault(digits, "no-literal", "large-literal")
}

/// What is wrong in a field that is no source: the number of the node or of the port, or all of it.
pub fn source_part(field: &[u8]) -> &[u8] {
    let mut parts = field.splitn(2, |byte| *byte == b'.');
    let node = parts.next().unwrap_or(b"");
    match parts.next() {
        Some(_port) if are_digits(node) && number(node).is_none() => node,
        Some(port) if are_digits(node) && are_digits(port) => port,
        _ => field,
    }
}

/// Why the field is no name.
pub fn name_fault(field: &[u8]) -> Text {
    if !field.first().copied().unwrap_or(b' ').is_ascii_alphabetic() {
        "`$p` is no name: that begins with a letter"
    } else if !field.iter().all(is_name_byte) {
        "`$p` is no name: that has letters, digits and `_` alone"
    } else {
        "the name `$p` has $a bytes, and 32 are the most"
    }
}
