use TokenKind::*;
use std::process::Abort;
use std::test::Fail;
use uc_lexer::{LexError, LexFault, Lexer, MAX_TEXT, Place, Token, TokenKind, tokens};

/// A text, the kinds of its tokens, and the column of the fault behind them.
type Case = (&'static [u8], &'static [TokenKind], Option<(Fault, u32)>);

#[derive(Clone, Copy)]
enum Fault {
    Byte,
    Number,
    Comment,
}

fn fault_at(fault: Fault, line: u32, col: u32) -> LexFault {
    let place = Place { file: 7, line, col };
    match fault {
        Fault::Byte => LexFault::BadByte(place),
        Fault::Number => LexFault::BadNumber(place),
        Fault::Comment => LexFault::OpenComment(place),
    }
}

fn check_case(rt: &impl Abort, text: &[u8], kinds: &[TokenKind], fault: Option<(Fault, u32)>) {
    assert!(rt; text.len() <= MAX_TEXT);
    let mut lexer = Lexer::new(7, text);
    for kind in kinds {
        check_next(rt, text, lexer.next(), *kind);
    }
    let end = match fault {
        Some((fault, col)) => Err(fault_at(fault, 1, col)),
        None => Ok(None),
    };
    assert_eq!(rt; lexer.next(), end, "behind {text:?}");
    assert_eq!(rt; lexer.next(), end, "behind {text:?} once more");
}

fn check_next(
    rt: &impl Abort,
    text: &[u8],
    next: Result<Option<Token>, LexFault>,
    kind: TokenKind,
) {
    match next {
        Ok(Some(token)) => assert_eq!(rt; token.kind, kind, "in {text:?}"),
        _ => panic!(rt; "a token is missing in {text:?}"),
    }
}

const CASES: [Case; 53] = [
    (
        b"module type var input output const function define procedure returns requires ensures modifies instance init next invariant axiom hyperinvariant hyperaxiom control boolean",
        &[
            KwModule,
            KwType,
            KwVar,
            KwInput,
            KwOutput,
            KwConst,
            KwFunction,
            KwDefine,
            KwProcedure,
            KwReturns,
            KwRequires,
            KwEnsures,
            KwModifies,
            KwInstance,
            KwInit,
            KwNext,
            KwInvariant,
            KwAxiom,
            KwHyperinvariant,
            KwHyperaxiom,
            KwControl,
            KwBoolean,
        ],
        None,
    ),
    (
        b"integer enum record if then else case default esac for in call skip assert assume havoc old true false forall exists while",
        &[
            KwInteger, KwEnum, KwRecord, KwIf, KwThen, KwElse, KwCase, KwDefault, KwEsac, KwFor,
            KwIn, KwCall, KwSkip, KwAssert, KwAssume, KwHavoc, KwOld, KwTrue, KwFalse, KwForall,
            KwExists, KwWhile,
        ],
        None,
    ),
    (
        b"modules Module module_ _module mod range unroll induction verify check print_results print_cex x _ a1_B",
        &[
            Name, Name, Name, Name, Name, Name, Name, Name, Name, Name, Name, Name, Name, Name,
            Name,
        ],
        None,
    ),
    (
        b"( ) { } [ ] , ; : . ' = == != <==> ==> && || !",
        &[
            LeftParen,
            RightParen,
            LeftBrace,
            RightBrace,
            LeftBracket,
            RightBracket,
            Comma,
            Semicolon,
            Colon,
            Dot,
            Prime,
            Assign,
            Equal,
            NotEqual,
            Iff,
            Implies,
            And,
            Or,
            Not,
        ],
        None,
    ),
    (
        b"< <= > >= <_u <=_u >_u >=_u + - * ++ & | ^ ~ ->",
        &[
            Less,
            LessEqual,
            Greater,
            GreaterEqual,
            LessUnsigned,
            LessEqualUnsigned,
            GreaterUnsigned,
            GreaterEqualUnsigned,
            Plus,
            Minus,
            Star,
            Concat,
            Ampersand,
            Bar,
            Caret,
            Tilde,
            Arrow,
        ],
        None,
    ),
    (
        b"<== <=> ===>",
        &[
            LessEqual, Assign, LessEqual, Greater, Equal, Assign, Greater,
        ],
        None,
    ),
    (
        b"=> !== &&& ||| +++ --> ::",
        &[
            Assign, Greater, NotEqual, Assign, And, Ampersand, Or, Bar, Concat, Plus, Minus, Arrow,
            Colon, Colon,
        ],
        None,
    ),
    (
        b"<_u( <_ux <_u1 <_u_ <_ <=_uu >_u>=_u",
        &[
            LessUnsigned,
            LeftParen,
            Less,
            Name,
            Less,
            Name,
            Less,
            Name,
            Less,
            Name,
            LessEqual,
            Name,
            GreaterUnsigned,
            GreaterEqualUnsigned,
        ],
        None,
    ),
    (
        b"0 007 340282366920938463463374607431768211455",
        &[
            Number(0),
            Number(7),
            Number(340282366920938463463374607431768211455),
        ],
        None,
    ),
    (
        b" 340282366920938463463374607431768211456",
        &[],
        Some((Fault::Number, 2)),
    ),
    (
        b"a 3402823669209384634633746074317682114550",
        &[Name],
        Some((Fault::Number, 3)),
    ),
    (
        b"bv8 bv08 bv bv8x bvx bv4294967295",
        &[BvType(8), BvType(8), Name, Name, Name, BvType(4294967295)],
        None,
    ),
    (b"bv4294967296", &[], Some((Fault::Number, 1))),
    (
        b"bv99999999999999999999999999999999999999999999",
        &[],
        Some((Fault::Number, 1)),
    ),
    (
        b"3bv8 00bv007 3bv8x 3bv8bv9",
        &[
            BvLit(3, 8),
            BvLit(0, 7),
            BvLit(3, 8),
            Name,
            BvLit(3, 8),
            BvType(9),
        ],
        None,
    ),
    (
        b"340282366920938463463374607431768211455bv1",
        &[BvLit(340282366920938463463374607431768211455, 1)],
        None,
    ),
    (
        b"340282366920938463463374607431768211456bv1",
        &[],
        Some((Fault::Number, 1)),
    ),
    (b"1bv4294967296", &[], Some((Fault::Number, 1))),
    (
        b"3 bv8 3. 3'",
        &[Number(3), BvType(8), Number(3), Dot, Number(3), Prime],
        None,
    ),
    (b"3bv", &[], Some((Fault::Number, 1))),
    (b"3bvx", &[], Some((Fault::Number, 1))),
    (b"3b", &[], Some((Fault::Number, 1))),
    (b"(3_", &[LeftParen], Some((Fault::Number, 2))),
    (b"1x", &[], Some((Fault::Number, 1))),
    (b"a//b\tc", &[Name], None),
    (b"a/**/b", &[Name, Name], None),
    (b"/* * / ** */x", &[Name], None),
    (b"/***/x/*/*/", &[Name], None),
    (b"// /*\ny", &[Name], None),
    (b"/* // */z", &[Name], None),
    (b"a/*", &[Name], Some((Fault::Comment, 2))),
    (b"/*/", &[], Some((Fault::Comment, 1))),
    (b"/* *", &[], Some((Fault::Comment, 1))),
    (b"x /* y */ /* z * /", &[Name], Some((Fault::Comment, 11))),
    (
        b"module main { /* cut",
        &[KwModule, Name, LeftBrace],
        Some((Fault::Comment, 15)),
    ),
    (
        b"module main { var 1x : boolean; }",
        &[KwModule, Name, LeftBrace, KwVar],
        Some((Fault::Number, 19)),
    ),
    (b"module #", &[KwModule], Some((Fault::Byte, 8))),
    (b"a#", &[Name], Some((Fault::Byte, 2))),
    (b"a\"", &[Name], Some((Fault::Byte, 2))),
    (b"a`", &[Name], Some((Fault::Byte, 2))),
    (b"a\\", &[Name], Some((Fault::Byte, 2))),
    (b"a@", &[Name], Some((Fault::Byte, 2))),
    (b"a$", &[Name], Some((Fault::Byte, 2))),
    (b"a%", &[Name], Some((Fault::Byte, 2))),
    (b"a?", &[Name], Some((Fault::Byte, 2))),
    (b"a/", &[Name], Some((Fault::Byte, 2))),
    (b"a\x00", &[Name], Some((Fault::Byte, 2))),
    (b"a\x7f", &[Name], Some((Fault::Byte, 2))),
    (b"a\x80", &[Name], Some((Fault::Byte, 2))),
    (b"a\xff", &[Name], Some((Fault::Byte, 2))),
    (b"a\x0b", &[Name], Some((Fault::Byte, 2))),
    (b"", &[], None),
    (b" \t\r\n", &[], None),
];

fn check_cases(rt: &impl Abort, cases: &[Case]) {
    for &(text, kinds, fault) in cases {
        check_case(rt, text, kinds, fault);
    }
}

#[test]
fn each_token_and_its_neighbours(rt: HostRuntime) {
    check_cases(&rt, &CASES);
}

#[test]
fn places_and_spans(rt: HostRuntime) -> Result<(), Fail> {
    let text = b"ab\r\n\t<==> /* \n\n */ 1bv2 // c\n'";
    let place = |line, col| Place { file: 7, line, col };
    let want = [
        Token {
            kind: Name,
            start: 0,
            end: 2,
            place: place(1, 1),
        },
        Token {
            kind: Iff,
            start: 5,
            end: 9,
            place: place(2, 2),
        },
        Token {
            kind: BvLit(1, 2),
            start: 19,
            end: 23,
            place: place(4, 5),
        },
        Token {
            kind: Prime,
            start: 29,
            end: 30,
            place: place(5, 1),
        },
    ];
    let found = tokens(rt.alloc(), 7, text).expect(&rt, "four tokens");
    assert_eq!(rt; found.as_slice(), want.as_slice());
    let fault = fault_at(Fault::Byte, 2, 1);
    assert_eq!(rt;
        tokens(rt.alloc(), 7, b"a\n#").err(),
        Some(LexError::Fault(fault))
    );
    Ok(())
}
