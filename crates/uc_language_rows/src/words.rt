use std::alloc::{AllocError, Global};
use std::process::Abort;
use std::test::Fail;
use uc_grammar::Kind::*;
use uc_grammar::{Kind, Word};
use uc_lexer::{LexError, LexFault, Place};
use uc_syntax::{BitFunction, Names};
use uc_words::words_of_text;

// A text with each kind of word, and the kinds.
const TEXT: &[u8] = b"x range unroll induction verify check print_results print_cex \
    bv_zero_extend bv_sign_extend bv_left_shift bv_l_right_shift bv_a_right_shift x Range ranges bv_zero_extend \
    12 bv8 3bv16 ( ) { } [ ] , ; : . ' = == != <==> ==> && || ! < <= > >= <_u <=_u >_u >=_u + - * ++ & | ^ ~ -> \
    module type var input output const function define procedure returns requires ensures modifies instance init next \
    invariant axiom hyperinvariant hyperaxiom control boolean integer enum record if else then case default esac for in call \
    skip assert assume havoc old true false forall exists while";

const KINDS: [Kind; 100] = [
    Name(1),
    Range(2),
    Unroll(3),
    Induction(4),
    Verify(5),
    Check(6),
    PrintResults(7),
    PrintCex(8),
    OnBits(BitFunction::ZeroExtend, 9),
    OnBits(BitFunction::SignExtend, 10),
    OnBits(BitFunction::ShiftLeft, 11),
    OnBits(BitFunction::ShiftRight, 12),
    OnBits(BitFunction::ShiftRightSigned, 13),
    Name(1),
    Name(14),
    Name(15),
    OnBits(BitFunction::ZeroExtend, 9),
    Number(12),
    BvType(8),
    BvLit(3, 16),
    LeftParen,
    RightParen,
    LeftBrace,
    RightBrace,
    LeftBracket,
    RightBracket,
    Comma,
    Semicolon,
    Colon,
    Dot,
    Prime,
    Assign,
    Equal,
    NotEqual,
    Iff,
    Implies,
    And,
    Or,
    Not,
    Less,
    LessEqual,
    Greater,
    GreaterEqual,
    LessUnsigned,
    LessEqualUnsigned,
    GreaterUnsigned,
    GreaterEqualUnsigned,
    Plus,
    Minus,
    Star,
    Concat,
    Ampersand,
    Bar,
    Caret,
    Tilde,
    Arrow,
    KwModule,
    KwType,
    KwVar,
    KwInput,
    KwOutput,
    KwConst,
    KwFunction,
    KwDefine,
    KwProcedure,
    KwReturns,
    KwRequires,
    KwEnsures,
    KwModifies,
    KwInstance,
    KwInit,
    KwNext,
    KwInvariant,
    KwAxiom,
    KwHyperinvariant,
    KwHyperaxiom,
    KwControl,
    KwBoolean,
    KwInteger,
    KwEnum,
    KwRecord,
    KwIf,
    KwElse,
    KwThen,
    KwCase,
    KwDefault,
    KwEsac,
    KwFor,
    KwIn,
    KwCall,
    KwSkip,
    KwAssert,
    KwAssume,
    KwHavoc,
    KwOld,
    KwTrue,
    KwFalse,
    KwForall,
    KwExists,
    KwWhile,
];

fn check_kinds(rt: &impl Abort, words: &[Word], kinds: &[Kind]) {
    assert_eq!(rt; words.len(), kinds.len());
    for (word, kind) in words.iter().zip(kinds.iter()) {
        assert_eq!(rt; word.kind, *kind);
    }
}

fn check_all(rt: &impl Abort, alloc: Global, names: &mut Names) -> Result<(), AllocError> {
    names.intern(alloc, b"m.ucl".as_slice())?;
    let words = words_of_text(alloc, names, 3, TEXT).expect(rt, "words");
    check_kinds(rt, words.as_slice(), &KINDS);
    assert_eq!(rt; names.len(), 16);
    Ok(())
}

#[test]
fn each_kind_of_word(rt: HostRuntime) -> Result<(), Fail> {
    let alloc = rt.alloc();
    let mut names = Names::new(alloc);
    check_all(&rt, alloc, &mut names)?;
    Ok(())
}

fn check_two(rt: &impl Abort, first: &[Word], second: &[Word]) {
    assert_eq!(rt; first.len(), 2);
    assert_eq!(rt; second.len(), 2);
    let word = second[1];
    assert_eq!(rt; word.kind, Name(1));
    let place = Place {
        file: 1,
        line: 2,
        col: 3,
    };
    assert_eq!(rt; word.place, place);
}

fn check_texts(rt: &impl Abort, alloc: Global, names: &mut Names) {
    let first = words_of_text(alloc, names, 0, b"check a").expect(rt, "two words");
    let second = words_of_text(alloc, names, 1, b"b\n  a").expect(rt, "two words");
    check_two(rt, first.as_slice(), second.as_slice());
}

fn check_fault(rt: &impl Abort, alloc: Global, names: &mut Names) {
    let fault = words_of_text(alloc, names, 1, b"c #");
    let place = Place {
        file: 1,
        line: 1,
        col: 3,
    };
    assert_eq!(rt;
        fault.err(),
        Some(LexError::Fault(LexFault::BadByte(place)))
    );
}

#[test]
fn a_second_text_keeps_the_numbers(rt: HostRuntime) {
    let alloc = rt.alloc();
    let mut names = Names::new(alloc);
    check_texts(&rt, alloc, &mut names);
    check_fault(&rt, alloc, &mut names);
    assert_eq!(rt; names.len(), 3);
}
