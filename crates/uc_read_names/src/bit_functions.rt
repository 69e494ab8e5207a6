//! The functions on bits, which every module knows.

ghost use Rattle.std.specs.Prelude.{◌≡◌, [], slice_index_or};
ghost use Rattle.std.specs.List.{list_any};
ghost use Rattle.std.specs.Str.{bytes_eq};
ghost use Rattle.uc_rules.specs.Names.{bit_functions};

use uc_syntax::Names;

/// Whether a name is that of a function on bits.
pub fn is_bit_function(names: &Names, name: u32) -> bool
    ensures { result ≡ list_any (bytes_eq (slice_index_or names.now name [])) bit_functions }
{
    if name as usize >= names.len() {
        return spells_bit_function(b"");
    }
    spells_bit_function(names.text(name))
}

fn spells_bit_function(text: &[u8]) -> bool
    ensures { result ≡ list_any (bytes_eq text.now) bit_functions }
{
    if spells(text, b"bv_zero_extend") {
        return true;
    }
    if spells(text, b"bv_sign_extend") {
        return true;
    }
    if spells(text, b"bv_left_shift") {
        return true;
    }
    if spells(text, b"bv_l_right_shift") {
        return true;
    }
    spells(text, b"bv_a_right_shift")
}

fn spells(text: &[u8], spelling: &[u8]) -> bool
    ensures { result ≡ bytes_eq text.now spelling.now }
{
    text == spelling
}
