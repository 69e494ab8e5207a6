//! Reads what is to be run.

ghost use Rattle.uc_forms.specs.CountedGives.{Counts};
ghost use Rattle.uc_grammar.specs.Syntax.{run};
ghost use Rattle.uc_parse_expressions.specs.Reading.{state, form};

use crate::parse_commands_bounds::{in_number, optional_number};
use uc_forms::Stop;
use uc_grammar::Kind;
use uc_lexer::Place;
use uc_parse_expressions::{Reader, in_name};
use uc_syntax::WrittenRun;

/// The names of the runs, whatever their numbers are.
pub(crate) const UNROLL: Kind = Kind::Unroll(0);

pub(crate) const INDUCTION: Kind = Kind::Induction(0);

pub(crate) const VERIFY: Kind = Kind::Verify(0);

/// A run, and the place of its first word.
#[tactic(auto, unfolding(uc_grammar::specs::Syntax::run))]
pub(crate) fn run(reader: &mut Reader<'_>, levels: u8) -> Result<(Place, WrittenRun), Stop>
    ensures { Counts result (state reader.new) (form levels run (state reader.old)) }
{
    if reader.is_at(UNROLL) {
        let word = reader.take(UNROLL)?;
        let bound = in_number(reader, levels)?;
        return Ok((word.place, WrittenRun::Unroll(bound)));
    }
    if reader.is_at(INDUCTION) {
        let word = reader.take(INDUCTION)?;
        let bound = optional_number(reader, levels)?;
        return Ok((word.place, WrittenRun::Induction(bound)));
    }
    let word = reader.take(VERIFY)?;
    let procedure = in_name(reader, levels)?;
    Ok((word.place, WrittenRun::Verify(procedure)))
}
