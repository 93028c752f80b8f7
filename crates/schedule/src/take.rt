//! Which of its tokens an element takes.

/// The order in which the elements take their tokens in turn.
#[derive(Clone, Copy, Debug, PartialEq, Eq)]
pub enum Take {
    /// Each element takes its oldest token.
    Oldest,
    /// Each takes its oldest token, but element 0 holds back the requests for frames that its queue begins with, and takes one of them
    /// only where few other tokens are left. Many programs that call themselves then need about as many frames as their calls are deep.
    Depth,
}
