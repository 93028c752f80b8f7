//! Signs between operands.

ghost use Rattle.std.specs.Prelude.{◌≡◌, ◌≤◌};
ghost use Rattle.surface.specs.Fits.{sign_level, left_level};
ghost use Rattle.law_language.specs.GrammarAutomaton.{infix_of};

use operators::Binary;
use source::token::Sign;
use source::word::InfixSign;

/// The operator that a sign between two operands is.
pub(crate) fn infix_of(sign: Sign) -> Option<InfixSign>
    ensures { result ≡ infix_of sign }
{
    let op = match sign {
        Sign::ShiftLeft => Binary::Shl,
        Sign::ShiftRight => Binary::Shr,
        Sign::EqualTo => Binary::Eq,
        Sign::NotEqualTo => Binary::Ne,
        Sign::AtMost => Binary::Le,
        Sign::Less => Binary::Lt,
        Sign::Plus => Binary::Add,
        Sign::Minus => Binary::Sub,
        Sign::Star => Binary::Mul,
        Sign::Slash => Binary::Div,
        Sign::Percent => Binary::Rem,
        Sign::Ampersand => Binary::And,
        Sign::Caret => Binary::Xor,
        Sign::Bar => Binary::Or,
        Sign::AtLeast => return Some(InfixSign::AtLeast),
        Sign::Greater => return Some(InfixSign::Greater),
        _ => return None,
    };
    Some(InfixSign::Direct { op })
}

/// The level in the grammar of what the sign joins.
pub(crate) fn sign_level(sign: InfixSign) -> u8
    ensures level { result ≡ sign_level sign }
    ensures small { result ≤ 10 }
{
    match sign {
        InfixSign::Greater | InfixSign::AtLeast => 4,
        InfixSign::Direct { op } => match op {
            Binary::Eq | Binary::Ne | Binary::Lt | Binary::Le => 4,
            Binary::Or => 5,
            Binary::Xor => 6,
            Binary::And => 7,
            Binary::Shl | Binary::Shr => 8,
            Binary::Add | Binary::Sub => 9,
            Binary::Mul | Binary::Div | Binary::Rem => 10,
        },
    }
}

/// The least level of the operand on the left. Operators of one level go to the left, but comparisons do not chain.
pub(crate) fn left_level(sign: InfixSign) -> u8
    ensures { result ≡ left_level sign }
{
    sign_level(sign).max(5)
}
