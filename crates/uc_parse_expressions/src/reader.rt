//! Takes words from the front.

ghost use Rattle.std.specs.Prelude.{◌≡◌, ◌∷◌, []};
ghost use Rattle.uc_forms.specs.Gives.{stop_deep};
ghost use Rattle.uc_forms.specs.Form.{member, quiet, declares, restarts};
ghost use Rattle.uc_forms.specs.Reading.{is_at, is_at_two};
ghost use Rattle.uc_forms.specs.Tally.{fresh};
ghost use Rattle.uc_forms.specs.Counted.{turned, count_any, count_word};
ghost use Rattle.uc_forms.specs.CountedGives.{Counts};
ghost use Rattle.uc_grammar.specs.Code.{code_of, name_in, value_in, width_in};
ghost use Rattle.uc_grammar.specs.declared.word.Kind.TheVariants.{Name, Colon};
ghost use Rattle.uc_grammar.specs.Syntax.{words, known, identifier};
ghost use Rattle.uc_parse_expressions.specs.Reading.{state, name_codes};

use std::alloc::Global;
use uc_forms::{Fault, Stop, Tally};
use uc_grammar::{Kind, Word};
use uc_syntax::Identifier;

/// The words that are not read yet, and the count of the names declared so far.
#[derive(Drop)]
pub struct Reader<'a> {
    pub alloc: Global,
    pub rest: &'a [Word],
    pub names: Tally<Word>,
}

impl<'a> Reader<'a> {
    /// A reader at the front of the words, which may declare at most `limit` names between two restarts.
    pub fn new(alloc: Global, words: &'a [Word], limit: u32) -> Reader<'a>
        ensures rest { result.rest.now ≡ words.now }
        ensures names { result.names ≡ fresh limit }
    {
        Reader {
            alloc,
            rest: words,
            names: Tally::new(limit),
        }
    }
}

impl Reader<'_> {
    /// Whether the next word is of this kind.
    pub fn is_at(&self, kind: Kind) -> bool
        ensures { result ≡ is_at words (code_of kind ∷ []) self.now.rest.now }
    {
        match self.rest {
            [] => false,
            [word, ..] => word.kind.code() == kind.code(),
        }
    }

    /// Whether the next word is a name, one of those that the grammar knows included.
    pub fn is_at_name(&self) -> bool
        ensures { result ≡ is_at words name_codes self.now.rest.now }
    {
        match self.rest {
            [] => false,
            [word, ..] => is_name(word.kind),
        }
    }

    /// Whether a name and then a colon come next.
    pub fn is_at_label(&self) -> bool
        ensures { result ≡ is_at_two words (Name 0) known Colon self.now.rest.now }
    {
        match self.rest {
            [one, two, ..] => is_name(one.kind) && two.kind.code() == Kind::Colon.code(),
            _ => false,
        }
    }

    /// Takes the next word, which is to be of this kind.
    pub fn take(&mut self, kind: Kind) -> Result<Word, Stop>
        ensures { Counts result (state self.new) (count_word words kind (state self.old)) }
    {
        match self.rest {
            [word, rest @ ..] if word.kind.code() == kind.code() => {
                self.rest = rest;
                Ok(*word)
            }
            _ => Err(Stop::At(Fault::Syntax)),
        }
    }

    /// Takes the next word, which is to be a name.
    pub fn take_name(&mut self) -> Result<Word, Stop>
        ensures { Counts result (state self.new) (count_any words quiet (Name 0) known (state self.old)) }
    {
        match self.rest {
            [word, rest @ ..] if is_name(word.kind) => {
                self.rest = rest;
                Ok(*word)
            }
            _ => Err(Stop::At(Fault::Syntax)),
        }
    }

    /// Takes the next word, which is to be a name, as an identifier.
    pub fn id(&mut self) -> Result<Identifier, Stop>
        ensures { Counts result (state self.new) (turned identifier (count_any words quiet (Name 0) known (state self.old))) }
    {
        let word = self.take_name()?;
        Ok(Identifier {
            place: word.place,
            name: name_of(word.kind),
        })
    }

    /// Takes the next word, which is to be a name, and declares it.
    pub fn declare_name(&mut self) -> Result<Word, Stop>
        ensures { Counts result (state self.new) (count_any words declares (Name 0) known (state self.old)) }
    {
        match self.rest {
            [word, rest @ ..] if is_name(word.kind) => {
                self.rest = rest;
                self.names.declare(*word);
                Ok(*word)
            }
            _ => Err(Stop::At(Fault::Syntax)),
        }
    }

    /// Takes the next word, which is to be of this kind, and starts the count of names again.
    pub fn restart(&mut self, kind: Kind) -> Result<Word, Stop>
        ensures { Counts result (state self.new) (count_any words restarts kind [] (state self.old)) }
    {
        match self.rest {
            [word, rest @ ..] if word.kind.code() == kind.code() => {
                self.rest = rest;
                self.names.restart();
                Ok(*word)
            }
            _ => Err(Stop::At(Fault::Syntax)),
        }
    }

    /// Takes the next word, which is to be a name, and declares it.
    pub fn new_id(&mut self) -> Result<Identifier, Stop>
        ensures { Counts result (state self.new) (turned identifier (count_any words declares (Name 0) known (state self.old))) }
    {
        let word = self.declare_name()?;
        Ok(Identifier {
            place: word.place,
            name: name_of(word.kind),
        })
    }

    /// Why a nested form cannot be read where no level is left for it.
    pub fn no_level(&self, kind: Kind) -> Stop
        ensures { result ≡ stop_deep (is_at words (code_of kind ∷ []) self.now.rest.now) }
    {
        if self.is_at(kind) {
            Stop::At(Fault::TooDeep)
        } else {
            Stop::At(Fault::Syntax)
        }
    }
}

/// Whether words of this kind are names.
fn is_name(kind: Kind) -> bool
    ensures { result ≡ member (code_of kind) name_codes }
{
    matches!(
        kind,
        Kind::Name(_)
            | Kind::OnBits(_, _)
            | Kind::Range(_)
            | Kind::Unroll(_)
            | Kind::Induction(_)
            | Kind::Verify(_)
            | Kind::Check(_)
            | Kind::PrintResults(_)
            | Kind::PrintCex(_)
    )
}

/// The number of a name, and 0 for other words.
pub fn name_of(kind: Kind) -> u32
    ensures { result ≡ name_in kind }
{
    match kind {
        Kind::Name(number)
        | Kind::OnBits(_, number)
        | Kind::Range(number)
        | Kind::Unroll(number)
        | Kind::Induction(number)
        | Kind::Verify(number)
        | Kind::Check(number)
        | Kind::PrintResults(number)
        | Kind::PrintCex(number) => number,
        _ => 0,
    }
}

/// The value of a number or of a literal, and 0 for other words.
pub fn value_of(kind: Kind) -> u128
    ensures { result ≡ value_in kind }
{
    match kind {
        Kind::Number(value) | Kind::BvLit(value, _) => value,
        _ => 0,
    }
}

/// The width of a bit-vector type or of a literal, and 0 for other words.
pub fn width_of(kind: Kind) -> u32
    ensures { result ≡ width_in kind }
{
    match kind {
        Kind::BvType(width) | Kind::BvLit(_, width) => width,
        _ => 0,
    }
}
