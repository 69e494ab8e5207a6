//! Why texts are refused.

ghost use Rattle.std.specs.Prelude.{◌≡◌};
ghost use Rattle.uc_front.specs.Refusals.{front, number_of, place_of};

use uc_lexer::Place;
use uc_report::ControlFault;
use uc_rules::Fault;

/// Why the texts are not accepted. Each has a number for users. Files are numbered from 0, by their places.
#[derive(Clone, Copy, Debug, PartialEq, Eq)]
pub enum Refusal {
    /// No text has the name of the file of this number.
    NoFile(u16),
    /// With the text of the file of this number the texts have too many bytes.
    TooLong(u16),
    /// A byte begins no token.
    BadByte(Place),
    /// A number is too large, or has a letter behind it.
    BadNumber(Place),
    /// A comment has no end.
    OpenComment(Place),
    /// No list of modules goes on with this token, or the text ends too early.
    Syntax(Place),
    /// The token lies in too many brackets.
    TooDeep(Place),
    /// The name is one too many in its module.
    TooManyNames(Place),
    /// No module is called `main`.
    NoMain,
    /// The design breaks a static rule or, where it keeps these, a rule on order or sizes. This is the fault at the first place, and there the one of the
    /// least number.
    BreaksRule(Fault),
    /// The design keeps these, and its control block breaks a rule on control blocks. This is the fault of the first command that breaks one.
    BreaksControl(ControlFault),
    /// The design keeps all rules and is none of those that run today: this is the first form, in the order of the texts, that never runs today
    /// (`outside_in` of uc_runnable). Where there is none, it is the first declaration or statement that has no form over cells, or else the front of
    /// the first file.
    NotBuilt(Place),
}

impl Refusal {
    /// The number that the error line gives.
    pub fn number(self) -> u32
        ensures { result ≡ number_of self }
    {
        match self {
            Refusal::TooLong(_) => 2,
            Refusal::BadByte(_) => 3,
            Refusal::BadNumber(_) => 4,
            Refusal::OpenComment(_) => 5,
            Refusal::Syntax(_) => 6,
            Refusal::TooDeep(_) => 7,
            Refusal::NoFile(_) => 8,
            Refusal::NoMain => 10,
            Refusal::BreaksRule(fault) => fault.rule.number(),
            Refusal::BreaksControl(fault) => fault.rule.number(),
            Refusal::TooManyNames(_) => 32,
            Refusal::NotBuilt(_) => 33,
        }
    }

    /// Where the texts are at fault: the token, or the front of the file at fault, or of the first, where no token is.
    pub fn place(self) -> Place
        ensures { result ≡ place_of self }
    {
        match self {
            Refusal::BadByte(place)
            | Refusal::BadNumber(place)
            | Refusal::OpenComment(place)
            | Refusal::Syntax(place)
            | Refusal::TooDeep(place)
            | Refusal::TooManyNames(place)
            | Refusal::NotBuilt(place) => place,
            Refusal::NoFile(file) | Refusal::TooLong(file) => front(file),
            Refusal::NoMain => front(0),
            Refusal::BreaksRule(fault) => fault.place,
            Refusal::BreaksControl(fault) => fault.place,
        }
    }
}

/// The front of the file of this number.
pub(crate) fn front(file: u16) -> Place
    ensures { result ≡ front file }
{
    Place {
        file,
        line: 1,
        col: 1,
    }
}
