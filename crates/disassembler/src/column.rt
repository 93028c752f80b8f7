//! Columns of a listing.

ghost use Rattle.std.specs.Prelude.{◌≡◌, ◌≤◌};
ghost use Rattle.disassembler.specs.Listing.{gap};

/// The spaces that fill a column of this width around a text of this length.
pub(crate) fn gap(width: usize, length: usize) -> &'static [u8]
    requires { width ≤ 8 }
    ensures { result.now ≡ gap width length }
{
    match width.saturating_sub(length) {
        0 => b"",
        1 => b" ",
        2 => b"  ",
        3 => b"   ",
        4 => b"    ",
        5 => b"     ",
        6 => b"      ",
        7 => b"       ",
        _ => b"        ",
    }
}
