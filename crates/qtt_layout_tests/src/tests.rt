use qtt_layout::{Laid, LayoutError, blocks};
use qtt_lexer::lex;
use std::alloc::Global;
use std::test::Fail;

fn write_laid(out: &mut String, laid: &Laid, with_places: bool) -> Result<(), Fail> {
    let (mark, span) = match laid {
        Laid::Open(span) => ("[", span),
        Laid::Next(span) => ("|", span),
        Laid::Close(span) => ("]", span),
        Laid::Tok(token) => (
            str::from_utf8(token.text.as_slice()).ok().unwrap_or("?"),
            &token.span,
        ),
    };
    write!(out, "{mark}")?;
    if with_places {
        write!(out, "{}:{}", span.line, span.col)?;
    }
    Ok(())
}

// The marks and tokens, or the fault with its place.
fn told(alloc: Global, text: &str, with_places: bool) -> Result<String, Fail> {
    if text.len() > 2_000_000 {
        return Err(Fail::from("the text is too long for a test"));
    }
    let Ok(tokens) = lex(alloc, text.as_bytes()) else {
        return Err(Fail::from("the text has no tokens"));
    };
    let mut out = String::new(alloc);
    match blocks(alloc, tokens.as_slice()) {
        Ok(marks) => {
            for (i, laid) in marks.iter().enumerate() {
                if i > 0 {
                    write!(out, " ")?;
                }
                write_laid(&mut out, laid, with_places)?;
            }
        }
        Err(LayoutError::Fault(fault)) => {
            write!(
                out,
                "fault {} {}:{}",
                fault.kind, fault.span.line, fault.span.col
            )?;
        }
        Err(LayoutError::Memory) => write!(out, "no memory")?,
    }
    Ok(out)
}

static BLOCKS: [(&str, &str); 27] = [
    ("", "[ ]"),
    ("module M", "[ module M ]"),
    (
        "  module M\n  import A\n\n  x : B",
        "[ module M | import A | x : B ]",
    ),
    (
        "data N : Type where\n  Z : N\n  S : N\nx = Z",
        "[ data N : Type where [ Z : N | S : N ] | x = Z ]",
    ),
    (
        "data N : Type where Z : N\n                    S : N",
        "[ data N : Type where [ Z : N | S : N ] ]",
    ),
    ("data N : Type where", "[ data N : Type where [ ] ]"),
    (
        "data N : Type where\nx = y",
        "[ data N : Type where [ ] | x = y ]",
    ),
    (
        "f = do\n  do\n    a\n    b\n  c",
        "[ f = do [ do [ a | b ] | c ] ]",
    ),
    ("f = do\n  do\n    a\ng", "[ f = do [ do [ a ] ] | g ]"),
    ("f = do a\n       b\n      c", "[ f = do [ a | b ] c ]"),
    ("f = do\n  a\n    b\n  c", "[ f = do [ a b | c ] ]"),
    ("f = do\n  do\n  a", "[ f = do [ do [ ] | a ] ]"),
    ("do do do", "[ do [ do [ do [ ] ] ] ]"),
    ("a ; b;c", "[ a | b | c ]"),
    ("a ;; b", "[ a | b ]"),
    ("a ;\nb", "[ a | b ]"),
    ("f = do\n  a ;\nb", "[ f = do [ a ] | b ]"),
    ("f = do ; a", "[ f = do [ | a ] ]"),
    ("f (do\n  a\n  b) c", "[ f ( do [ a | b ] ) c ]"),
    ("f (do a) .(do b)", "[ f ( do [ a ] ) .( do [ b ] ) ]"),
    ("f (do (do a) b) c", "[ f ( do [ ( do [ a ] ) b ] ) c ]"),
    ("f (do a ;) b", "[ f ( do [ a ] ) b ]"),
    ("(do)", "[ ( do [ ] ) ]"),
    ("f = do a ) b", "[ f = do [ a ) b ] ]"),
    ("f (do\n    a (\n  b) c)", "[ f ( do [ a ( ] b ) c ) ]"),
    (
        "f = do\n  g (do\n    a\n  )",
        "[ f = do [ g ( do [ a ] | ) ] ]",
    ),
    ("f {do a}\n b", "[ f { do [ a } ] b ]"),
];

#[test]
fn marks_of_blocks(rt: HostRuntime) -> Result<(), Fail> {
    for &(text, expected) in &BLOCKS {
        assert_eq!(rt;
            told(rt.alloc(), text, false)?.as_str(),
            expected,
            "at {text}"
        );
    }
    Ok(())
}

static PLACES: [(&str, &str); 9] = [
    ("", "[1:1 ]1:1"),
    (" \n ", "[2:2 ]2:2"),
    ("a ;\nb", "[1:1 a1:1 |1:3 b2:1 ]2:2"),
    ("a\nb\n", "[1:1 a1:1 |2:1 b2:1 ]3:1"),
    ("f do", "[1:1 f1:1 do1:3 [1:5 ]1:5 ]1:5"),
    (
        "f do\n  a\ng",
        "[1:1 f1:1 do1:3 [2:3 a2:3 ]3:1 |3:1 g3:1 ]3:2",
    ),
    ("f do\ng", "[1:1 f1:1 do1:3 [2:1 ]2:1 |2:1 g2:1 ]2:2"),
    ("  a\n b", "fault 7 2:2"),
    ("  a do\n   b\n  c\nd e", "fault 7 4:1"),
];

#[test]
fn places_of_marks(rt: HostRuntime) -> Result<(), Fail> {
    for &(text, expected) in &PLACES {
        assert_eq!(rt;
            told(rt.alloc(), text, true)?.as_str(),
            expected,
            "at {text}"
        );
    }
    Ok(())
}
