//! Pieces of code.

ghost use Rattle.std.specs.Prelude.{◌≡◌, ◌*◌, OnOk};
ghost use Rattle.uc_sizes.specs.Pieces.{Adds, cut, piece_amount};

use std::alloc::AllocError;
use uc_items::Items;
use uc_syntax::Expr;

/// A number that stands for itself and for all above it.
const MOST: u128 = 0x1_0000_0000;

/// What code has itself, and what it brings in from elsewhere.
#[derive(Clone, Copy)]
pub enum Piece<'a> {
    /// A statement, without what is in it.
    Statement,
    Expression(&'a Expr),
    /// The procedure of this name, which is called.
    Call(u32),
    /// The instance of this name, which is stepped.
    Step(u32),
}

/// A piece, and how often it is run through, up to a number that stands for all above it.
#[derive(Clone, Copy)]
pub struct Repeated<'a> {
    pub times: u64,
    pub piece: Piece<'a>,
}

pub(crate) fn push<'a>(
    times: u64,
    piece: Piece<'a>,
    pieces: &mut Items<Repeated<'a>>,
) -> Result<(), AllocError>
    ensures { OnOk result (Adds pieces.old pieces.new times (λ c. piece_amount c piece.entry)) }
{
    pieces.push(Repeated { times, piece })?;
    Ok(())
}

/// How often something is run through that so many turns have each so often.
pub(crate) fn times_of(times: u64, turns: u128) -> u64
    ensures { result ≡ cut (times * turns) }
{
    let all = u128::from(times).saturating_mul(turns).min(MOST);
    all as u64
}
