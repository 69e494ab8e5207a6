//! The kinds of byte that tokens are made of.

ghost use Rattle.std.specs.Prelude.{◌≡◌};
ghost use Rattle.uc_lexer.specs.Bytes as spec;

#[inline]
pub(crate) fn is_letter(c: u8) -> bool
    ensures { result ≡ spec.is_letter c }
{
    c.is_ascii_alphabetic() || c == b'_'
}

#[inline]
pub(crate) fn is_word(c: u8) -> bool
    ensures { result ≡ spec.is_word c }
{
    is_letter(c) || c.is_ascii_digit()
}
