//! The words that the core has not.

ghost use Rattle.std.specs.Prelude.{◌≡◌};
ghost use Rattle.surface_tokens.specs.Beginnings.{new_word};

use surface::token::Keyword;

/// The word that the run is, where that is none of the core's.
pub(crate) fn new_word(run: &[u8]) -> Option<Keyword>
    ensures { result ≡ new_word run.now }
{
    if run == b"const".as_slice() {
        Some(Keyword::Const)
    } else if run == b"for".as_slice() {
        Some(Keyword::For)
    } else if run == b"in".as_slice() {
        Some(Keyword::In)
    } else if run == b"with".as_slice() {
        Some(Keyword::With)
    } else if run == b"and".as_slice() {
        Some(Keyword::And)
    } else if run == b"or".as_slice() {
        Some(Keyword::Or)
    } else if run == b"not".as_slice() {
        Some(Keyword::Not)
    } else {
        None
    }
}
