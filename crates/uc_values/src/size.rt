//! How many bits the values of a type take.

ghost use Rattle.std.specs.Prelude.{◌≡◌};
ghost use Rattle.std.specs.Option.{option_map, IfSome};
ghost use Rattle.uc_values.specs.Sizes.{bit_count, total_bits, label_bits, capped, counts, IsLeastWidth};

use crate::ty::{Field, Ty};

/// The number of bits, `u64::MAX` standing for every greater number; None where the type holds an
/// integer, an array or an uninterpreted type.
#[cycle(bits)]
pub fn bits(ty: &Ty) -> Option<u64>
    ensures { result ≡ option_map capped (bit_count ty.now) }
{
    match ty {
        Ty::Bool => Some(1),
        Ty::Bv(width) => Some(u64::from(*width)),
        Ty::Enum(_, labels) => Some(label_bits(*labels)),
        Ty::Rec(fields) => total_bits(fields.as_slice()),
        Ty::Int | Ty::Un(_) | Ty::Arr(_, _) => None,
    }
}

#[cycle(bits)]
fn total_bits(fields: &[Field<Ty>]) -> Option<u64>
    ensures { result ≡ option_map capped (total_bits (counts fields.now)) }
{
    let mut total = 0u64;
    for field in fields {
        let Some(count) = bits(&field.ty) else {
            return None;
        };
        total = total.saturating_add(count);
    }
    Some(total)
}

/// How many bits tell so many labels apart.
fn label_bits(labels: u32) -> u64
    ensures count { result ≡ label_bits labels }
    ensures least { IsLeastWidth labels result }
{
    for width in 1..32u64 {
        if u64::from(labels) <= 1u64 << width {
            return width;
        }
    }
    32
}
