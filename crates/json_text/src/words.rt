//! The words of a line.

ghost use Rattle.std.specs.Prelude.{◌≡◌, ◌==◌};
ghost use Rattle.std.specs.List.{position};
ghost use Rattle.json_text.specs.Json.{first_space, head, tail};

/// The index of the first space.
fn first_space(text: &[u8]) -> Option<usize>
    ensures { result ≡ first_space text.now }
{
    text.iter().position(|byte| *byte == b' ')
}

/// The first word: what is before the first space.
pub(crate) fn head(text: &[u8]) -> &[u8]
    ensures { result.now ≡ head text.now }
{
    match first_space(text) {
        Some(at) => &text[..at],
        None => text,
    }
}

/// The other words: what is after the first space.
pub(crate) fn tail(text: &[u8]) -> &[u8]
    ensures { result.now ≡ tail text.now }
{
    match first_space(text) {
        Some(at) => &text[at + 1..],
        None => &text[text.len()..],
    }
}
