//! Reads the clauses of procedures.

ghost use Rattle.std.specs.Prelude.{◌≡◌};
ghost use Rattle.uc_forms.specs.CountedGives.{Counts};
ghost use Rattle.uc_forms.specs.Form.{many};
ghost use Rattle.uc_forms.specs.Reading.{is_at};
ghost use Rattle.uc_grammar.specs.Syntax.{words, clause};
ghost use Rattle.uc_parser.specs.Parts.{clause_codes};
ghost use Rattle.uc_parse_expressions.specs.Reading.{state, form};

use uc_forms::Stop;
use uc_grammar::Kind;
use uc_items::Items;
use uc_parse_expressions::{Reader, expr_before, ids};
use uc_syntax::Clause;

/// Whether the next word begins a clause.
fn is_at_clause(reader: &Reader<'_>) -> bool
    ensures { result ≡ is_at words clause_codes reader.now.rest.now }
{
    reader.is_at(Kind::KwRequires)
        || reader.is_at(Kind::KwEnsures)
        || reader.is_at(Kind::KwModifies)
}

/// A clause, up to its semicolon.
#[tactic(auto, unfolding(uc_grammar::specs::Syntax::clause))]
fn clause(reader: &mut Reader<'_>, levels: u8) -> Result<Clause, Stop>
    ensures { Counts result (state reader.new) (form levels clause (state reader.old)) }
{
    if reader.is_at(Kind::KwRequires) {
        let word = reader.take(Kind::KwRequires)?;
        let condition = expr_before(reader, levels, Kind::Semicolon)?;
        return Ok(Clause::Requires(word.place, condition));
    }
    if reader.is_at(Kind::KwEnsures) {
        let word = reader.take(Kind::KwEnsures)?;
        let condition = expr_before(reader, levels, Kind::Semicolon)?;
        return Ok(Clause::Ensures(word.place, condition));
    }
    let word = reader.take(Kind::KwModifies)?;
    let names = ids(reader, levels)?;
    reader.take(Kind::Semicolon)?;
    Ok(Clause::Modifies(word.place, names))
}

/// The clauses that follow.
pub(crate) fn clauses(reader: &mut Reader<'_>, levels: u8) -> Result<Items<Clause>, Stop>
    ensures { Counts result (state reader.new) (form levels (many clause) (state reader.old)) }
{
    let mut found = Items::new(reader.alloc);
    'turns: while is_at_clause(reader) {
        let next = clause(reader, levels)?;
        found.push(next)?;
    }
    Ok(found)
}
