//! Names that the grammar knows by their text.

ghost use Rattle.std.specs.Prelude.{◌≡◌};
ghost use Rattle.std.specs.Str.{bytes_eq};
ghost use Rattle.uc_words.specs.Known.{known_names, kind_in};

use uc_grammar::Kind;
use uc_syntax::BitFunction;

/// The word of a name with this text and number.
pub(crate) fn name_kind(text: &[u8], number: u32) -> Kind
    ensures { result ≡ kind_in known_names text.now number }
{
    if spells(text, b"range") {
        Kind::Range(number)
    } else if spells(text, b"unroll") {
        Kind::Unroll(number)
    } else if spells(text, b"induction") {
        Kind::Induction(number)
    } else if spells(text, b"verify") {
        Kind::Verify(number)
    } else if spells(text, b"check") {
        Kind::Check(number)
    } else if spells(text, b"print_results") {
        Kind::PrintResults(number)
    } else if spells(text, b"print_cex") {
        Kind::PrintCex(number)
    } else if spells(text, b"bv_zero_extend") {
        Kind::OnBits(BitFunction::ZeroExtend, number)
    } else if spells(text, b"bv_sign_extend") {
        Kind::OnBits(BitFunction::SignExtend, number)
    } else if spells(text, b"bv_left_shift") {
        Kind::OnBits(BitFunction::ShiftLeft, number)
    } else if spells(text, b"bv_l_right_shift") {
        Kind::OnBits(BitFunction::ShiftRight, number)
    } else if spells(text, b"bv_a_right_shift") {
        Kind::OnBits(BitFunction::ShiftRightSigned, number)
    } else {
        Kind::Name(number)
    }
}

/// Whether these are the same bytes.
#[inline(always)]
fn spells(text: &[u8], spelling: &[u8]) -> bool
    ensures { result ≡ bytes_eq text.now spelling.now }
{
    text == spelling
}
