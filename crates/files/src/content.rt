//! What a file has, and what a command reads of it.

ghost use Rattle.std.specs.Prelude.{◌≡◌};
ghost use Rattle.files.specs.Files.{content_of, reads_of};

use command_line::Request;

/// What a file has.
#[derive(Clone, Copy, Debug, PartialEq, Eq)]
pub enum Content {
    Graph,
    Object,
    Program,
}

/// What a command reads of a file.
#[derive(Clone, Copy, Debug, PartialEq, Eq)]
pub enum Reads {
    /// The bytes as they are.
    Bytes,
    /// The text of a graph.
    Graph,
    /// The text of a graph, and the inputs after it.
    Inputs,
}

/// What these bytes have: it shows in the first ones.
pub fn content_of(bytes: &[u8]) -> Content
    ensures { result ≡ content_of bytes.now }
{
    if bytes.starts_with(b"etsgraph ") {
        Content::Graph
    } else if bytes.starts_with(b"ETSOBJCT") {
        Content::Object
    } else {
        Content::Program
    }
}

/// What the command of this request reads.
pub fn reads_of(request: &Request) -> Reads
    ensures { result ≡ reads_of request.now }
{
    match request {
        Request::Run(_options) | Request::RunEnough(_options) => Reads::Inputs,
        Request::Mean { .. }
        | Request::Trace { .. }
        | Request::Profile { .. }
        | Request::Orders { .. } => Reads::Inputs,
        Request::Check | Request::Compile | Request::Dot { code: false } => Reads::Graph,
        Request::Dot { code: true }
        | Request::Dis { .. }
        | Request::Upgrade
        | Request::Exec { .. }
        | Request::Asm
        | Request::Lower(_) => Reads::Bytes,
    }
}
