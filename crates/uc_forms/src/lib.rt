//! Grammars as data: the laws of reading with one word of lookahead, proved once for every grammar.
//!
//! A parser is to accept exactly the texts of its language, and to refuse every other text at the first word with
//! which no text goes on. Proved production by production this takes several laws for each. Here it is proved once.
//!
//! **A grammar is a value.** `Form` (in `specs/Form.antt`) has nine shapes: a word of some kinds, nothing, one form
//! after another, one or the other, a chain of turns, turns up to an end, a value made of the parts, a label that
//! the second word tells (`ahead`), and a nested form. A form has a type of values, so a grammar says at once what
//! stands where and which tree it means. What recurses goes through a *nested form*: brackets, a sign before its
//! operand, whatever the language counts as a level. A grammar names its nested forms and gives each its rule.
//!
//! **Three definitions go over a form**, each by cases and each by itself:
//!
//! - `SpellWith`, the relation "these words spell this value" (`specs/Spelling.antt`). With it goes `stands`: how each
//!   word stands in the text, that is what it does (it may declare a name, or start the count of names again) and in
//!   how many nested forms it lies. This is what a reader of a contract has to know.
//! - `read`, which takes words from the front and looks at one word ahead, at `ahead` at two (`specs/Reading.antt`).
//!   It gives a value and the words that are left, or a fault and the words from the faulty one on. A parser in Rust
//!   is an ordinary recursive descent whose functions are proved to give what `read` gives.
//! - `is_plain`, a test that computes: at each place the next word tells what to do (`specs/Plain.antt`). For a
//!   grammar it is proved by `refl`. Where it fails, the production needs factoring, and the failing rule is shown.
//!
//! **The laws** are the contracts of the functions of this crate, for every grammar that passes the test. What is
//! read is spelled; what is spelled is read, or refused at the first word that lies too deep; a fault at a word comes
//! whatever follows; the words before a fault can be completed; words spell at most one value; how words stand is the
//! same in all texts that begin with them. `IsAnswer` (`specs/Answer.antt`) says what is to be answered for words:
//! their value, or the first fault and its place. `answers_right` says that reading answers this, and `one_answer`
//! that nothing else is right. Neither speaks of how anything is read.
//!
//! **To write a parser:** give the `Alphabet` of its words (the kinds, and a number for each), write the grammar as
//! forms whose values are the trees, prove `IsPlain` by `refl`, and put it into a `Grammar`. Write one function for
//! each form, with the contract `Gives result rest.new (read rule opens levels form rest.old)`; a function of a form
//! without loops and nesting is proved with nothing written. A nested form begins with the test that a level is left
//! (`proofs/Levels.antt`); a loop is a function of its own (`proofs/Turns.antt`, `proofs/Endings.antt`). A function
//! that meets declared names counts them in a `Tally`, with the contract `CountsOn` (`proofs/Steps.antt`,
//! `proofs/Counting.antt`); a form that declares none needs no clause (`proofs/Silent.antt`). The public call then
//! answers `IsAnswer` by one lemma for each way to end (`proofs/Whole.antt`). `proofs/Spelled.antt` serves printers.
//! The parser of the language does all of this, in `uc_words`, `uc_parse_expressions` and `uc_parser`.
//!
//! Reading words and counting declared names in one go, for every grammar.
//!
//! A parser whose state is the words that are left and the count of declared names proves one clause for each function:
//! it gives what `count` gives from the state before. `count` (in `specs/Counted.antt`) is reading with the count beside the
//! words. The law of this crate says that it reads exactly what `read` of `uc_forms` reads, and counts exactly the names that
//! `noted` lists, so the laws of `uc_forms` hold of it.
//!
//! The lemmas for a parser's functions stand in `proofs`: a nested form (`Levels.antt`), turns of a loop (`Turns.antt`), turns
//! up to an end (`Endings.antt`), small forms (`Shapes.antt`) and the whole text (`Whole.antt`).
#![tactic(auto)]

mod fault;
mod law;
mod laws;
mod stop;
mod tally;

pub use fault::Fault;
pub use law::counting_is_reading;
pub use laws::{
    Language, answers_right, deep_is_refused, depths_bound_levels, fault_comes_again,
    fault_completes, levels_bound_depths, one_answer, one_value, read_is_spelled, spelled_is_read,
    stand_alike,
};
pub use stop::Stop;
pub use tally::Tally;
