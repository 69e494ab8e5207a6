//! The simplifier of terms: a term that is equal under every model, by rules of which each is proved.
//!
//! [`simplify`] meets each term below the given one once, in the order of their numbers, and rebuilds it over what stands for its
//! parts. At each operation the rules are tried in turn, and again on what a rule gives, up to sixteen times. A rule names a term
//! below the parts, or another operation on such terms (`uc_simplify_steps`), or it makes terms; its contract says that what it
//! gives has the type and under every model the value of the operation, and brings no symbol, function, integer, array or `Diff`
//! that is new.
//!
//! | Rule | Before | After |
//! |---|---|---|
//! | constants | an operation on one or two constants that gives a truth, a number or bits | its value; left undone where that leaves 128 bits |
//! | negation | `!!a` | `a` |
//! | conjunction, disjunction | parts that are the same junction of at most 8 parts | their parts in their place |
//! | | the parts | in the order of their numbers, each once, without `true` (`false` in a disjunction) |
//! | | `a` and `!a`; with a false part (a true one) | `false` (`true`) |
//! | | of one part `a`; of none | `a`; `true` (`false`) |
//! | conditional | `if true then a else b`, `if false then a else b` | `a`, `b` |
//! | | `if c then a else a` | `a` |
//! | | `if !c then a else b` | `if c then b else a` |
//! | | `if c then true else false`, `if c then false else true` | `c`, `!c` |
//! | equality | of two constants | `true` or `false` |
//! | | `a == true`, `a == false` | `a`, `!a` |
//! | | of two records that are made | the conjunction of the equalities of their fields, down to eight records within one another |
//! | | of `a` with `x` stored at `i` and `a` with `y` stored at `i` | `x == y` |
//! | comparison with itself | `a == a` of any type, `a <= a` (integers, signed, unsigned) | `true` |
//! | | `a < a` (signed, unsigned) | `false` |
//! | order | `a == b` of a type with constants, `a + b`, `a * b`, `a & b`, `a \| b`, `a ^ b` of bits | a constant last, else the earlier term first |
//! | neutral bits | `a + 0`, `a - 0`, `a \| 0`, `a ^ 0`, `a << 0`, `a >> 0` (both kinds), `a * 1`, `a & ones` | `a` |
//! | absorbing bits | `a * 0`, `a & 0`; `a \| ones` | `0`; `ones` |
//! | bits with themselves | `a & a`, `a \| a`; `a - a`, `a ^ a` | `a`; `0` |
//! | shifts | `a << n`, `a >> n` (filled with 0) by the width or more | `0` |
//! | bits turned twice | `~~a`, `-(-a)` of bits | `a` |
//! | extractions | of all bits; of an extraction | `a`; one extraction |
//! | | of a concatenation, within one part | an extraction of that part |
//! | | of an extension, within the bits extended; within the zeros | an extraction of these; `0` |
//! | extensions | by no bits; of an extension of the same kind | `a`; one extension |
//! | sums | `a + 0`, `a + -1 * a`, of one integer `a`, of two constants | `a`, `0`, `a`, the constant where it has 128 bits |
//! | multiples | `1 * a`; `0 * a`; `m * (n * a)` | `a`; `0`; `mn * a` where `mn` has 128 bits |
//! | linear forms | sums, and multiples of sums, of parts that may be sums of at most 32 parts or multiples of such | one multiple of each term, in the order of the numbers, and then the constant, where it is not 0 |
//! | differences | `a <= b`, `a == b` of integers | the same of two sums: of `a - b` the positive multiples, and the negative ones turned; the constant is on the right, or on the left where no multiple is |
//! | | `a == b` where the earliest term of `a - b` has a negative coefficient | as for `b == a` |
//! | | a linear form or a difference with a number that leaves 128 bits | left undone |
//! | records | field `i` of a record that is made | its part `i` |
//! | arrays | what `a` with `x` stored at `i` holds at `i` | `x` |
//! | | at a constant that is not the constant `i` | what `a` holds there |
//!
//! Linear forms of terms of integers, for the simplifier.
//!
//! A term of integers has a form: a constant, and a coefficient for each of the terms that it is a sum of multiples of, by their
//! numbers, where those of one term are gathered. A part that is a sum of at most 8 parts, or a multiple of one, is opened. Where a
//! coefficient or a constant leaves 128 bits, there is no form.
#![tactic(auto)]

mod building;
mod gathering;
mod linear;
mod opening;
mod rebuild;
mod records;
mod simplifier;

pub use gathering::{difference_form, multiple_form, sum_form};
pub use simplifier::{simplify, simplify_from};
