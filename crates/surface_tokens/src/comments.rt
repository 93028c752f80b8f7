//! Comments that may have lines.

ghost use Rattle.std.specs.Prelude.{◌≡◌, ◌≤◌, length, codes, IfSome};
ghost use Rattle.source.specs.Tokens.{begins};
ghost use Rattle.surface.specs.Tokens.{comment_len};

/// How many bytes there are up to the end of the first `*/`. None where there is none.
pub(crate) fn comment_len(text: &[u8]) -> Option<usize>
    ensures exact { result ≡ comment_len text.now }
    ensures within { IfSome result (λ len. len ≤ length text.now) }
{
    for at in 0..text.len() {
        if ends_comment(&text[at..]) {
            return Some(at + 2);
        }
    }
    None
}

/// Whether the text begins with the end of a comment.
fn ends_comment(text: &[u8]) -> bool
    ensures { result ≡ begins (codes "*/") text.now }
{
    matches!(text, [b'*', b'/', ..])
}
