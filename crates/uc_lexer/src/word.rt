//! Names, keywords and bit-vector types.

ghost use Rattle.std.specs.Prelude.{◌≡◌, length};
ghost use Rattle.std.specs.List.{take_while};
ghost use Rattle.std.specs.Str.{bytes_eq};
ghost use Rattle.uc_lexer.specs.Bytes as byte;
ghost use Rattle.uc_lexer.specs.Bytes.{AreAll};
ghost use Rattle.uc_lexer.specs.Reading.{lookup, of_length, type_digits, word_kind, limited};
ghost use Rattle.uc_lexer.specs.Table.{keywords};

use crate::byte::is_word;
use crate::number::{after_bv, digits_end, width};
use crate::token::TokenKind;

/// The length of the longest front of letters, digits and `_`.
pub(crate) fn word_end(text: &[u8]) -> usize
    ensures { result ≡ length (take_while byte.is_word text.now) }
{
    text.iter().take_while(|c| is_word(**c)).count()
}

/// The keyword, bit-vector type or name that a whole word is. None is a type whose width is too
/// large.
pub(crate) fn word_kind(word: &[u8]) -> Option<TokenKind>
    ensures { result ≡ limited (word_kind word.now) }
{
    if let Some(keyword) = keyword(word) {
        return Some(keyword);
    }
    let digits = type_digits(word);
    if digits.is_empty() {
        return Some(TokenKind::Name);
    }
    Some(TokenKind::BvType(width(digits)?))
}

/// The digits of a bit-vector type, or none.
fn type_digits(word: &[u8]) -> &[u8]
    ensures value { result.now ≡ type_digits word.now }
    ensures digits { AreAll byte.is_digit result.now }
{
    let digits = after_bv(word);
    if digits_end(digits) == digits.len() {
        digits
    } else {
        &[]
    }
}

fn keyword(word: &[u8]) -> Option<TokenKind>
    ensures { result ≡ lookup keywords word.now }
{
    match word.len() {
        2 => keyword_of_two(word),
        3 => keyword_of_three(word),
        4 => keyword_of_four(word),
        5 => keyword_of_five(word),
        6 => keyword_of_six(word),
        7 => keyword_of_seven(word),
        8 => keyword_of_eight(word),
        9 => keyword_of_nine(word),
        10 => keyword_of_ten(word),
        14 => keyword_of_fourteen(word),
        _ => None,
    }
}

fn keyword_of_two(word: &[u8]) -> Option<TokenKind>
    ensures { result ≡ lookup (of_length 2 keywords) word.now }
{
    if spells(word, b"if") {
        Some(TokenKind::KwIf)
    } else if spells(word, b"in") {
        Some(TokenKind::KwIn)
    } else {
        None
    }
}

fn keyword_of_three(word: &[u8]) -> Option<TokenKind>
    ensures { result ≡ lookup (of_length 3 keywords) word.now }
{
    if spells(word, b"var") {
        Some(TokenKind::KwVar)
    } else if spells(word, b"for") {
        Some(TokenKind::KwFor)
    } else if spells(word, b"old") {
        Some(TokenKind::KwOld)
    } else {
        None
    }
}

fn keyword_of_four(word: &[u8]) -> Option<TokenKind>
    ensures { result ≡ lookup (of_length 4 keywords) word.now }
{
    if spells(word, b"type") {
        Some(TokenKind::KwType)
    } else if spells(word, b"init") {
        Some(TokenKind::KwInit)
    } else if spells(word, b"next") {
        Some(TokenKind::KwNext)
    } else if spells(word, b"enum") {
        Some(TokenKind::KwEnum)
    } else if spells(word, b"else") {
        Some(TokenKind::KwElse)
    } else if spells(word, b"then") {
        Some(TokenKind::KwThen)
    } else if spells(word, b"case") {
        Some(TokenKind::KwCase)
    } else if spells(word, b"esac") {
        Some(TokenKind::KwEsac)
    } else if spells(word, b"call") {
        Some(TokenKind::KwCall)
    } else if spells(word, b"skip") {
        Some(TokenKind::KwSkip)
    } else if spells(word, b"true") {
        Some(TokenKind::KwTrue)
    } else {
        None
    }
}

fn keyword_of_five(word: &[u8]) -> Option<TokenKind>
    ensures { result ≡ lookup (of_length 5 keywords) word.now }
{
    if spells(word, b"input") {
        Some(TokenKind::KwInput)
    } else if spells(word, b"const") {
        Some(TokenKind::KwConst)
    } else if spells(word, b"axiom") {
        Some(TokenKind::KwAxiom)
    } else if spells(word, b"havoc") {
        Some(TokenKind::KwHavoc)
    } else if spells(word, b"false") {
        Some(TokenKind::KwFalse)
    } else if spells(word, b"while") {
        Some(TokenKind::KwWhile)
    } else {
        None
    }
}

fn keyword_of_six(word: &[u8]) -> Option<TokenKind>
    ensures { result ≡ lookup (of_length 6 keywords) word.now }
{
    if spells(word, b"module") {
        Some(TokenKind::KwModule)
    } else if spells(word, b"output") {
        Some(TokenKind::KwOutput)
    } else if spells(word, b"define") {
        Some(TokenKind::KwDefine)
    } else if spells(word, b"record") {
        Some(TokenKind::KwRecord)
    } else if spells(word, b"assert") {
        Some(TokenKind::KwAssert)
    } else if spells(word, b"assume") {
        Some(TokenKind::KwAssume)
    } else if spells(word, b"forall") {
        Some(TokenKind::KwForall)
    } else if spells(word, b"exists") {
        Some(TokenKind::KwExists)
    } else {
        None
    }
}

fn keyword_of_seven(word: &[u8]) -> Option<TokenKind>
    ensures { result ≡ lookup (of_length 7 keywords) word.now }
{
    if spells(word, b"returns") {
        Some(TokenKind::KwReturns)
    } else if spells(word, b"ensures") {
        Some(TokenKind::KwEnsures)
    } else if spells(word, b"control") {
        Some(TokenKind::KwControl)
    } else if spells(word, b"boolean") {
        Some(TokenKind::KwBoolean)
    } else if spells(word, b"integer") {
        Some(TokenKind::KwInteger)
    } else if spells(word, b"default") {
        Some(TokenKind::KwDefault)
    } else {
        None
    }
}

fn keyword_of_eight(word: &[u8]) -> Option<TokenKind>
    ensures { result ≡ lookup (of_length 8 keywords) word.now }
{
    if spells(word, b"function") {
        Some(TokenKind::KwFunction)
    } else if spells(word, b"requires") {
        Some(TokenKind::KwRequires)
    } else if spells(word, b"modifies") {
        Some(TokenKind::KwModifies)
    } else if spells(word, b"instance") {
        Some(TokenKind::KwInstance)
    } else {
        None
    }
}

fn keyword_of_nine(word: &[u8]) -> Option<TokenKind>
    ensures { result ≡ lookup (of_length 9 keywords) word.now }
{
    if spells(word, b"procedure") {
        Some(TokenKind::KwProcedure)
    } else if spells(word, b"invariant") {
        Some(TokenKind::KwInvariant)
    } else {
        None
    }
}

fn keyword_of_ten(word: &[u8]) -> Option<TokenKind>
    ensures { result ≡ lookup (of_length 10 keywords) word.now }
{
    if spells(word, b"hyperaxiom") {
        Some(TokenKind::KwHyperaxiom)
    } else {
        None
    }
}

fn keyword_of_fourteen(word: &[u8]) -> Option<TokenKind>
    ensures { result ≡ lookup (of_length 14 keywords) word.now }
{
    if spells(word, b"hyperinvariant") {
        Some(TokenKind::KwHyperinvariant)
    } else {
        None
    }
}

/// Whether the word is this keyword.
#[inline(always)]
fn spells(word: &[u8], keyword: &[u8]) -> bool
    ensures { result ≡ bytes_eq word.now keyword.now }
{
    word == keyword
}
