use qtt_lexer::{LexError, Token, TokenKind, lex};
use std::alloc::Global;
use std::test::Fail;

fn write_token(out: &mut String, token: &Token) -> Result<(), Fail> {
    match &token.kind {
        TokenKind::Name(name) => write!(out, "Name {name}")?,
        TokenKind::Number(number) => write!(out, "Number {number}")?,
        TokenKind::Text(value) => write!(out, "Text {:?}", value.as_slice())?,
        TokenKind::Hole(name) => write!(out, "Hole {name}")?,
        other => write!(out, "{other:?}")?,
    }
    let span = token.span;
    write!(out, " {}:{}+{}", span.line, span.col, span.len)?;
    Ok(())
}

// The tokens with their places, or the fault: its kind, its place, and its word.
fn told(alloc: Global, bytes: &[u8]) -> Result<String, Fail> {
    if bytes.len() > 2_000_000 {
        return Err(Fail::from("the text is too long for a test"));
    }
    let mut out = String::new(alloc);
    match lex(alloc, bytes) {
        Ok(tokens) => {
            for (i, token) in tokens.iter().enumerate() {
                if i > 0 {
                    write!(out, ", ")?;
                }
                write_token(&mut out, token)?;
            }
        }
        Err(LexError::Fault(fault)) => {
            let span = fault.span;
            write!(
                out,
                "fault {} {}:{}+{} {:?}",
                fault.kind,
                span.line,
                span.col,
                span.len,
                fault.word.as_slice()
            )?;
        }
        Err(LexError::Memory) => write!(out, "no memory")?,
    }
    Ok(out)
}

fn spell(alloc: Global, unit: &str, times: usize) -> Result<String, Fail> {
    let mut text = String::new(alloc);
    for _ in 0..times {
        text.push_str(unit)?;
    }
    Ok(text)
}

static TOKENS: [(&str, &str); 13] = [
    ("", "End 1:1+0"),
    (
        "module import data where",
        "Module 1:1+6, Import 1:8+6, Data 1:15+4, Where 1:20+5, End 1:25+0",
    ),
    (
        "do let in partial the Type",
        "Do 1:1+2, Let 1:4+3, In 1:8+2, Partial 1:11+7, The 1:19+3, Type 1:23+4, End 1:27+0",
    ),
    (
        "( ) .( ->",
        "LeftParen 1:1+1, RightParen 1:3+1, DotParen 1:5+2, Arrow 1:8+2, End 1:10+0",
    ),
    (
        "<- => : =",
        "LeftArrow 1:1+2, FatArrow 1:4+2, Colon 1:7+1, Equals 1:9+1, End 1:10+0",
    ),
    (
        "; \\ { }",
        "Semicolon 1:1+1, Backslash 1:3+1, LeftBrace 1:5+1, RightBrace 1:7+1, End 1:8+0",
    ),
    (
        "a A.b' _x _ x1",
        "Name a 1:1+1, Name A.b' 1:3+4, Name _x 1:8+2, Wildcard 1:11+1, Name x1 1:13+2, End 1:15+0",
    ),
    (
        "where.x _.a a._",
        "Name where.x 1:1+7, Name _.a 1:9+3, Name a._ 1:13+3, End 1:16+0",
    ),
    (
        "0 007 -5 -0 a-5",
        "Number 0 1:1+1, Number 7 1:3+3, Number -5 1:7+2, Number 0 1:10+2, Name a 1:13+1, Number -5 1:14+2, End 1:16+0",
    ),
    ("?a ?b'.", "fault 2 1:7+1 [46]"),
    ("?a ?b'", "Hole a 1:1+2, Hole b' 1:4+3, End 1:7+0"),
    (
        "\"\" \"a\\n\\t\\\\\\\"\"",
        "Text [] 1:1+2, Text [97, 10, 9, 92, 34] 1:4+11, End 1:15+0",
    ),
    (
        "é ñ.Ω x·",
        "Name é 1:1+1, Name ñ.Ω 1:3+3, Name x· 1:7+2, End 1:9+0",
    ),
];

#[test]
fn every_kind_of_token(rt: HostRuntime) -> Result<(), Fail> {
    for &(text, expected) in &TOKENS {
        assert_eq!(rt;
            told(rt.alloc(), text.as_bytes())?.as_str(),
            expected,
            "at {text}"
        );
    }
    Ok(())
}

static PLACES: [(&str, &str); 15] = [
    ("\u{FEFF}a", "Name a 1:1+1, End 1:2+0"),
    ("a\r\nb", "Name a 1:1+1, Name b 2:1+1, End 2:2+0"),
    ("\ta", "Name a 1:9+1, End 1:10+0"),
    (
        "abcdefg\tb\tc",
        "Name abcdefg 1:1+7, Name b 1:9+1, Name c 1:17+1, End 1:18+0",
    ),
    (
        "abcdefgh\tb",
        "Name abcdefgh 1:1+8, Name b 1:17+1, End 1:18+0",
    ),
    (
        "é\t\"ü\" x",
        "Name é 1:1+1, Text [195, 188] 1:9+3, Name x 1:13+1, End 1:14+0",
    ),
    ("a -- b {- \nc", "Name a 1:1+1, Name c 2:1+1, End 2:2+0"),
    (
        "a {- {- -} \n -} b",
        "Name a 1:1+1, Name b 2:5+1, End 2:6+0",
    ),
    ("{--}a{---}b--", "Name a 1:5+1, Name b 1:11+1, End 1:14+0"),
    (
        "\"-- {- \"x",
        "Text [45, 45, 32, 123, 45, 32] 1:1+8, Name x 1:9+1, End 1:10+0",
    ),
    (
        "a->b=>c=d",
        "Name a 1:1+1, Arrow 1:2+2, Name b 1:4+1, FatArrow 1:5+2, Name c 1:7+1, Equals 1:8+1, Name d 1:9+1, End 1:10+0",
    ),
    (
        "a.(b)",
        "Name a 1:1+1, DotParen 1:2+2, Name b 1:4+1, RightParen 1:5+1, End 1:6+0",
    ),
    (
        "{ -5}",
        "LeftBrace 1:1+1, Number -5 1:3+2, RightBrace 1:5+1, End 1:6+0",
    ),
    (
        "-9223372036854775808",
        "Number -9223372036854775808 1:1+20, End 1:21+0",
    ),
    (
        "9223372036854775807",
        "Number 9223372036854775807 1:1+19, End 1:20+0",
    ),
];

#[test]
fn places_and_gaps(rt: HostRuntime) -> Result<(), Fail> {
    for &(text, expected) in &PLACES {
        assert_eq!(rt;
            told(rt.alloc(), text.as_bytes())?.as_str(),
            expected,
            "at {text}"
        );
    }
    Ok(())
}

static FAULTS: [(&[u8], &str); 34] = [
    (b"a\xFFb", "fault 1 1:2+0 []"),
    (b"\n \xE9\x41", "fault 1 2:2+0 []"),
    (b"\"ab\xFF\"", "fault 1 1:4+0 []"),
    (b"\"a\\\xFF\"", "fault 1 1:4+0 []"),
    (b"\"\\q\xFF\"", "fault 2 1:2+1 [92]"),
    (b"{- a\n \xFF -}", "fault 1 2:2+0 []"),
    (b"-- a\xC3", "fault 1 1:5+0 []"),
    (b"-\xFF", "fault 2 1:1+1 [45]"),
    (b"?\xFF", "fault 2 1:1+1 [63]"),
    (b"9223372036854775808\xFF", "fault 5 1:1+19 []"),
    (b"a b$", "fault 2 1:4+1 [36]"),
    (b"\t\xC2\xA7", "fault 2 1:9+1 [194, 167]"),
    (b"\xEF\xBB\xBF\xEF\xBB\xBF", "fault 2 1:1+1 [239, 187, 191]"),
    (b"a.", "fault 2 1:2+1 [46]"),
    (b"a.1", "fault 2 1:2+1 [46]"),
    (b"- 5", "fault 2 1:1+1 [45]"),
    (b"<", "fault 2 1:1+1 [60]"),
    (b"?", "fault 2 1:1+1 [63]"),
    (b"? a", "fault 2 1:1+1 [63]"),
    (b"?a.b", "fault 2 1:1+1 [63]"),
    (b"?where", "fault 2 1:1+1 [63]"),
    (b"?_", "fault 2 1:1+1 [63]"),
    (b"'a", "fault 2 1:1+1 [39]"),
    (b"a \"b", "fault 3 1:3+1 []"),
    (b"a \"b\n\"", "fault 3 1:3+1 []"),
    (b"\"b\\", "fault 3 1:1+1 []"),
    (b"\"b\\\n\"", "fault 3 1:1+1 []"),
    (b"\"b\\\r\n\"", "fault 2 1:3+1 [92]"),
    (b"a\n {- {- -}", "fault 4 2:2+2 []"),
    (b"{-}", "fault 4 1:1+2 []"),
    (b"{-", "fault 4 1:1+2 []"),
    (b"9223372036854775808", "fault 5 1:1+19 []"),
    (b"-9223372036854775809", "fault 5 1:1+20 []"),
    (b"99999999999999999999999", "fault 5 1:1+23 []"),
];

#[test]
fn every_fault_at_its_place(rt: HostRuntime) -> Result<(), Fail> {
    for &(text, expected) in &FAULTS {
        assert_eq!(rt; told(rt.alloc(), text)?.as_str(), expected, "at {text:?}");
    }
    Ok(())
}

static LONG: [(&str, usize, &str, &str); 11] = [
    ("a", 255, "", "Name "),
    ("a", 256, "", "fault 6 1:1+256 []"),
    ("a", 256, "b ", "fault 6 1:3+256 []"),
    ("a", 256, "b.", "fault 6 1:1+258 []"),
    ("é", 127, "", "Name "),
    ("é", 128, "", "fault 6 1:1+128 []"),
    ("a", 255, "?", "Hole "),
    ("a", 256, "?", "fault 6 1:2+256 []"),
    ("a", 256, "?b.", "fault 2 1:1+1 [63]"),
    ("1", 400, "", "fault 5 1:1+400 []"),
    ("0", 400, "", "Number 0 1:1+400"),
];

#[test]
fn long_names(rt: HostRuntime) -> Result<(), Fail> {
    for &(unit, times, before, expected) in &LONG {
        let mut text = String::from_str(rt.alloc(), before)?;
        text.push_str(spell(rt.alloc(), unit, times)?.as_str())?;
        let found = told(rt.alloc(), text.as_bytes())?;
        assert!(rt;
            found.as_str().starts_with(expected),
            "at {before}{times} times {unit}: {found}"
        );
    }
    Ok(())
}

#[test]
fn deep_comments(rt: HostRuntime) -> Result<(), Fail> {
    let mut closed = spell(rt.alloc(), "{-", 1_000)?;
    closed.push_str(spell(rt.alloc(), "-}", 1_000)?.as_str())?;
    assert_eq!(rt;
        told(rt.alloc(), closed.as_bytes())?.as_str(),
        "End 1:4001+0"
    );
    let open = spell(rt.alloc(), "{-", 500_000)?;
    assert_eq!(rt;
        told(rt.alloc(), open.as_bytes())?.as_str(),
        "fault 4 1:1+2 []"
    );
    Ok(())
}
