//! The words of a text, one by one.

ghost use Rattle.std.specs.Prelude.{◌≡◌, OnOk};
ghost use Rattle.uc_print_laws.specs.Text.{name_text, function_text, kind_text, plain_text, with_word};
ghost use Rattle.uc_grammar.specs.declared.word.Kind.TheVariants as kinds;

use crate::page::Page;
use itoa::Buffer;
use std::alloc::AllocError;
use uc_grammar::Kind;
use uc_syntax::{BitFunction, Names};

fn name_text(names: &Names, number: u32) -> &[u8]
    ensures { result.now ≡ name_text names.now number }
{
    if (number as usize) < names.len() {
        return names.text(number);
    }
    b""
}

/// Puts the text of a name.
pub fn put_name(page: &mut Page, names: &Names, number: u32) -> Result<(), AllocError>
    ensures { OnOk result (page.new ≡ with_word page.old (name_text names.now number)) }
{
    page.word(name_text(names, number))
}

fn function_text(function: BitFunction) -> &'static [u8]
    ensures { result.now ≡ function_text function }
{
    match function {
        BitFunction::ZeroExtend => b"bv_zero_extend",
        BitFunction::SignExtend => b"bv_sign_extend",
        BitFunction::ShiftLeft => b"bv_left_shift",
        BitFunction::ShiftRight => b"bv_l_right_shift",
        BitFunction::ShiftRightSigned => b"bv_a_right_shift",
    }
}

fn put_number(page: &mut Page, number: u128) -> Result<(), AllocError>
    ensures { OnOk result (page.new ≡ with_word page.old (kind_text (kinds.Number number))) }
{
    let mut buffer = Buffer::new();
    page.word(buffer.format(number).as_bytes())
}

fn put_type_of_bits(page: &mut Page, width: u32) -> Result<(), AllocError>
    ensures { OnOk result (page.new ≡ with_word page.old (kind_text (kinds.BvType width))) }
{
    let mut buffer = Buffer::new();
    page.word_of(b"", b"bv", buffer.format(width).as_bytes())
}

fn put_literal(page: &mut Page, value: u128, width: u32) -> Result<(), AllocError>
    ensures { OnOk result (page.new ≡ with_word page.old (kind_text (kinds.BvLit value width))) }
{
    let mut value_buffer = Buffer::new();
    let mut width_buffer = Buffer::new();
    let digits = value_buffer.format(value).as_bytes();
    page.word_of(digits, b"bv", width_buffer.format(width).as_bytes())
}

/// Puts a word that is no name of the design.
pub fn put_sign(page: &mut Page, kind: Kind) -> Result<(), AllocError>
    ensures { OnOk result (page.new ≡ with_word page.old (kind_text kind)) }
{
    match kind {
        Kind::Number(number) => put_number(page, number),
        Kind::BvType(width) => put_type_of_bits(page, width),
        Kind::BvLit(value, width) => put_literal(page, value, width),
        _ => page.word(kind_text(kind)),
    }
}

// The text of a word without numbers.
fn kind_text(kind: Kind) -> &'static [u8]
    ensures { result.now ≡ plain_text kind }
{
    match kind {
        Kind::Number(_) | Kind::BvType(_) | Kind::BvLit(_, _) | Kind::Name(_) => b"",
        Kind::OnBits(function, _) => function_text(function),
        Kind::Range(_) => b"range",
        Kind::Unroll(_) => b"unroll",
        Kind::Induction(_) => b"induction",
        Kind::Verify(_) => b"verify",
        Kind::Check(_) => b"check",
        Kind::PrintResults(_) => b"print_results",
        Kind::PrintCex(_) => b"print_cex",
        Kind::KwModule => b"module",
        Kind::KwType => b"type",
        Kind::KwVar => b"var",
        Kind::KwInput => b"input",
        Kind::KwOutput => b"output",
        Kind::KwConst => b"const",
        Kind::KwFunction => b"function",
        Kind::KwDefine => b"define",
        Kind::KwProcedure => b"procedure",
        Kind::KwReturns => b"returns",
        Kind::KwRequires => b"requires",
        Kind::KwEnsures => b"ensures",
        Kind::KwModifies => b"modifies",
        Kind::KwInstance => b"instance",
        Kind::KwInit => b"init",
        Kind::KwNext => b"next",
        Kind::KwInvariant => b"invariant",
        Kind::KwAxiom => b"axiom",
        Kind::KwHyperinvariant => b"hyperinvariant",
        Kind::KwHyperaxiom => b"hyperaxiom",
        Kind::KwControl => b"control",
        Kind::KwBoolean => b"boolean",
        Kind::KwInteger => b"integer",
        Kind::KwEnum => b"enum",
        Kind::KwRecord => b"record",
        Kind::KwIf => b"if",
        Kind::KwElse => b"else",
        Kind::KwThen => b"then",
        Kind::KwCase => b"case",
        Kind::KwDefault => b"default",
        Kind::KwEsac => b"esac",
        Kind::KwFor => b"for",
        Kind::KwIn => b"in",
        Kind::KwCall => b"call",
        Kind::KwSkip => b"skip",
        Kind::KwAssert => b"assert",
        Kind::KwAssume => b"assume",
        Kind::KwHavoc => b"havoc",
        Kind::KwOld => b"old",
        Kind::KwTrue => b"true",
        Kind::KwFalse => b"false",
        Kind::KwForall => b"forall",
        Kind::KwExists => b"exists",
        Kind::KwWhile => b"while",
        Kind::Iff => b"<==>",
        Kind::LessEqualUnsigned => b"<=_u",
        Kind::GreaterEqualUnsigned => b">=_u",
        Kind::Implies => b"==>",
        Kind::LessUnsigned => b"<_u",
        Kind::GreaterUnsigned => b">_u",
        Kind::Equal => b"==",
        Kind::NotEqual => b"!=",
        Kind::And => b"&&",
        Kind::Or => b"||",
        Kind::LessEqual => b"<=",
        Kind::GreaterEqual => b">=",
        Kind::Concat => b"++",
        Kind::Arrow => b"->",
        Kind::LeftParen => b"(",
        Kind::RightParen => b")",
        Kind::LeftBrace => b"{",
        Kind::RightBrace => b"}",
        Kind::LeftBracket => b"[",
        Kind::RightBracket => b"]",
        Kind::Comma => b",",
        Kind::Semicolon => b";",
        Kind::Colon => b":",
        Kind::Dot => b".",
        Kind::Prime => b"'",
        Kind::Assign => b"=",
        Kind::Not => b"!",
        Kind::Less => b"<",
        Kind::Greater => b">",
        Kind::Plus => b"+",
        Kind::Minus => b"-",
        Kind::Star => b"*",
        Kind::Ampersand => b"&",
        Kind::Bar => b"|",
        Kind::Caret => b"^",
        Kind::Tilde => b"~",
    }
}
