use qtt_base::Fault;
use qtt_grammar::{GrammarError, parse};
use qtt_layout::blocks;
use qtt_lexer::lex;
use qtt_syntax::print;
use std::alloc::Global;
use std::test::Fail;

mod fronts;
mod limits;
mod places;
mod rows;

// A fault as its place, kind, word and count.
fn written(alloc: Global, fault: &Fault) -> Result<String, Fail> {
    let mut out = String::new(alloc);
    write!(out, "{}:{} {}", fault.span.line, fault.span.col, fault.kind)?;
    if !fault.word.is_empty() {
        out.push_str(" ")?;
        out.push_str(str::from_utf8(fault.word.as_slice()).ok().unwrap_or("?"))?;
    }
    if fault.count > 0 {
        write!(out, " {}", fault.count)?;
    }
    Ok(out)
}

// What is read, printed, or the fault.
fn told(alloc: Global, text: &str) -> Result<String, Fail> {
    if text.len() > 2_000_000 {
        return Err(Fail::from("the text is too long for a test"));
    }
    let Ok(tokens) = lex(alloc, text.as_bytes()) else {
        return Err(Fail::from("the text has no tokens"));
    };
    let Ok(laid) = blocks(alloc, tokens.as_slice()) else {
        return Err(Fail::from("the tokens have no blocks"));
    };
    match parse(alloc, laid.as_slice()) {
        Ok(text) => {
            let mut out = String::new(alloc);
            if let Ok(printed) = str::from_utf8(print(alloc, &text)?.as_slice()) {
                out.push_str(printed)?;
            }
            Ok(out)
        }
        Err(GrammarError::Fault(fault)) => written(alloc, &fault),
        Err(GrammarError::Memory) => Err(Fail::from("no memory")),
    }
}

static TEXTS: [(&str, &str); 22] = [
    ("module Main", "module Main\n"),
    (
        "module Main\nimport A.B ; import C",
        "module Main\nimport A.B\nimport C\n",
    ),
    (
        "module Main\ndata Nat : (Type) where\n  Z : Nat\n  S : (Nat) -> (Nat)\n",
        "module Main\ndata Nat : Type where\n  Z : Nat\n  S : Nat -> Nat\n",
    ),
    (
        "module Main\ndata E : Type 0 where\nx = y",
        "module Main\ndata E : Type where\nx = y\n",
    ),
    (
        "module Main\ndata V (a : Type) (0 n : N) : N -> Type 3 where Nil : {0 k : N} -> V a k",
        "module Main\ndata V (a : Type) (0 n : N) : N -> Type 3 where\n  Nil : {0 k : N} -> V a k\n",
    ),
    (
        "module Main\npartial\nf : A",
        "module Main\npartial f : A\n",
    ),
    ("module Main\n0 f : A", "module Main\n0 f : A\n"),
    (
        "module Main\npartial 0 f : {0 a : T} -> {0 b : U} -> a -> b",
        "module Main\npartial 0 f : {0 a : T} -> {0 b : U} -> a -> b\n",
    ),
    (
        "module Main\nf x _ Z (S n _) .(g x) (T) ((y)) A.B = x",
        "module Main\nf x _ Z (S n _) .(g x) T y A.B = x\n",
    ),
    (
        "module Main\nf = \\x (0 y : A) _ => (x)",
        "module Main\nf = \\x (0 y : A) _ => x\n",
    ),
    (
        "module Main\nf = let 1 x : A = a in let y = b in c",
        "module Main\nf = let 1 x : A = a in let y = b in c\n",
    ),
    (
        "module Main\nf : (0 x : A) -> (B -> C) -> (_ : D) -> E",
        "module Main\nf : (0 x : A) -> (B -> C) -> D -> E\n",
    ),
    (
        "module Main\nf = g (h x) \"a\" -5 Type 2 (A.b) 0",
        "module Main\nf = g (h x) \"a\" -5 Type 2 A.b 0\n",
    ),
    (
        "module Main\nf = g {a} {h b} c",
        "module Main\nf = g {a} {h b} c\n",
    ),
    (
        "module Main\nf = the (A) (g x)",
        "module Main\nf = the A (g x)\n",
    ),
    ("module Main\nf = ((g x)) y", "module Main\nf = (g x) y\n"),
    (
        "module Main\nf = \\x => ?goal",
        "module Main\nf = \\x => ?goal\n",
    ),
    (
        "module Main\nf = do x <- a ; let 0 y : B = b ; let z = c in d ; _ <- e ; g h",
        "module Main\nf = do\n  x <- a\n  let 0 y : B = b\n  let z = c in d\n  _ <- e\n  g h\n",
    ),
    (
        "module Main\nf = do let _ = a ; ?b",
        "module Main\nf = do\n  let _ = a\n  ?b\n",
    ),
    ("module Main\nf = (Type) 5", "module Main\nf = Type 0 5\n"),
    (
        "module Main\nf = g { -5 } (\\x => x)",
        "module Main\nf = g { -5} (\\x => x)\n",
    ),
    (
        "module Main\nf = \"a\\n\\t\\\\\\\"\"",
        "module Main\nf = \"a\\n\\t\\\\\\\"\"\n",
    ),
];

#[test]
fn texts_are_read(rt: HostRuntime) -> Result<(), Fail> {
    for &(text, expected) in &TEXTS {
        assert_eq!(rt; told(rt.alloc(), text)?.as_str(), expected, "at {text}");
    }
    Ok(())
}

static FAULTS: [(&str, &str); 21] = [
    ("", "1:1 8 end"),
    ("x : A", "1:1 8 x"),
    ("module", "1:7 8 end"),
    ("module Main\n  x", "2:3 8 x"),
    ("module Main\nx : where", "2:5 8 where"),
    ("module Main\nx :\ny = a", "3:1 8 next"),
    ("module Main\nx = do\n  y <- a", "3:9 8 end"),
    ("module Main\nx = do\n  y <- a\nz = b", "4:1 8 close"),
    ("module Main\nx = do", "2:7 8 end"),
    ("module Main\nx : A\nimport B", "3:1 8 import"),
    ("module Main\nx = (?a)", "2:6 8 ?a"),
    ("module Main\nx = f ?a", "2:7 8 ?a"),
    ("module Main\nx = do ?a ; b", "2:11 8 next"),
    ("module Main\nx = Type 99", "module Main\nx = Type 99\n"),
    ("module Main\nx = Type 100", "2:10 31 number after Type 100"),
    ("module Main\nX.y : A", "2:1 8 X.y"),
    ("module Main\n1 x : A", "2:1 8 1"),
    ("module Main\nx = a )", "2:7 8 )"),
    ("module Main\nf : {1 a : T} -> a", "2:6 8 1"),
    ("module Main\nf : (x : A)", "2:12 8 end"),
    ("module Main\nf a.b = c", "2:3 8 a.b"),
];

#[test]
fn first_bad_tokens(rt: HostRuntime) -> Result<(), Fail> {
    for &(text, expected) in &FAULTS {
        assert_eq!(rt; told(rt.alloc(), text)?.as_str(), expected, "at {text}");
    }
    Ok(())
}

// A text in which parts are repeated: what stands before them, one part, what stands between,
// what stands once for each part behind that, and at the end; the greatest count of them, and
// the fault of one more.
type Row = (
    &'static str,
    &'static str,
    &'static str,
    &'static str,
    &'static str,
    u32,
    &'static str,
);

fn repeated(alloc: Global, row: &Row, count: u32) -> Result<String, Fail> {
    let mut text = String::new(alloc);
    text.push_str("module Main\n")?;
    text.push_str(row.0)?;
    for _ in 0..count {
        text.push_str(row.1)?;
    }
    text.push_str(row.2)?;
    for _ in 0..count {
        text.push_str(row.3)?;
    }
    text.push_str(row.4)?;
    Ok(text)
}

// What is read, where a text that has no fault is not printed.
fn verdict(alloc: Global, row: &Row, count: u32) -> Result<String, Fail> {
    let text = repeated(alloc, row, count)?;
    let told = told(alloc, text.as_str())?;
    let mut out = String::new(alloc);
    if told.as_bytes().starts_with(b"module") {
        out.push_str("a text")?;
    } else {
        out.push_str(told.as_str())?;
    }
    Ok(out)
}

static LEVELS: [Row; 14] = [
    ("x = ", "(", "a", ")", "", 200, "2:205 9"),
    ("x = ", "\\y => ", "a", "", "", 200, "2:1205 9"),
    ("x = ", "\\(y : A) => ", "a", "", "", 199, "2:2394 9"),
    ("x = ", "let y = a in ", "a", "", "", 200, "2:2605 9"),
    ("x = ", "do ", "a", "", "", 200, "2:605 9"),
    ("x = ", "a -> ", "a", "", "", 200, "2:1007 9"),
    ("x = ", "f {", "a", "}", "", 200, "2:607 9"),
    ("x : ", "{0 a : T} -> ", "a", "", "", 200, "2:2605 9"),
    ("f ", "(", "y", ")", " = a", 200, "2:203 9"),
    ("f .(", "(", "y", ")", ") = a", 199, "2:204 9"),
    ("f ", "(", ".(y)", ")", " = a", 199, "2:203 9"),
    ("x : Int\nx = ", "(", "3", ")", "", 200, "3:205 9"),
    ("x : ", "(a : T) -> ", "a", "", "", 200, "2:2205 9"),
    ("x = (", "do let y = (", "a", ") ; b", ")", 66, "2:801 9"),
];

static COUNTS: [Row; 15] = [
    (
        "f",
        " x",
        " = a",
        "",
        "",
        100,
        "2:203 31 parameters, indices, fields, or patterns of one thing 101",
    ),
    (
        "f (S",
        " x",
        ") = a",
        "",
        "",
        100,
        "2:206 31 parameters, indices, fields, or patterns of one thing 101",
    ),
    (
        "data N",
        " (a : T)",
        " : Type where",
        "",
        "",
        100,
        "2:808 31 parameters, indices, fields, or patterns of one thing 101",
    ),
    (
        "data N : ",
        "T -> ",
        "Type where",
        "",
        "",
        100,
        "2:510 31 parameters, indices, fields, or patterns of one thing 101",
    ),
    (
        "data N : Type where\n  C : ",
        "N -> ",
        "N",
        "",
        "",
        100,
        "3:507 31 parameters, indices, fields, or patterns of one thing 101",
    ),
    (
        "data N : Type where\n  C : ",
        "{0 a : T} -> ",
        "N",
        "",
        "",
        100,
        "3:1307 31 parameters, indices, fields, or patterns of one thing 101",
    ),
    (
        "data N : Type where\n  C : ",
        "(a : T) -> ",
        "(N -> N)",
        "",
        "",
        99,
        "3:1108 31 parameters, indices, fields, or patterns of one thing 101",
    ),
    (
        "data N : Type where",
        "\n  C : N",
        "",
        "",
        "",
        200,
        "203:3 31 constructors of a family 201",
    ),
    (
        "x : a",
        "\nf = a",
        "",
        "",
        "",
        1_000,
        "1003:1 31 clauses of a definition 1001",
    ),
    (
        "f : Int -> Int",
        "\nf x = 0",
        "",
        "",
        "",
        1_000,
        "1003:1 31 clauses of a definition 1001",
    ),
    (
        "",
        "x : a\n",
        "",
        "",
        "",
        10_000,
        "10002:1 31 items of a module 10001",
    ),
    (
        "x = do",
        "\n  a",
        "",
        "",
        "",
        500,
        "503:3 31 statements of a do 501",
    ),
    (
        "x = \"",
        "a",
        "\"",
        "",
        "",
        65_536,
        "2:5 31 bytes of a text literal 65537",
    ),
    (
        "x = \"",
        "\\n",
        "\"",
        "",
        "",
        65_536,
        "2:5 31 bytes of a text literal 65537",
    ),
    (
        "x = \"a",
        "€",
        "\"",
        "",
        "",
        21_845,
        "2:5 31 bytes of a text literal 65537",
    ),
];

#[test]
fn limits_of_levels_and_counts(rt: HostRuntime) -> Result<(), Fail> {
    for row in LEVELS.iter().chain(&COUNTS) {
        let part = row.1;
        assert_eq!(rt;
            verdict(rt.alloc(), row, row.5)?.as_str(),
            "a text",
            "at {part}"
        );
        assert_eq!(rt;
            verdict(rt.alloc(), row, row.5.saturating_add(1))?.as_str(),
            row.6,
            "at {part}"
        );
    }
    Ok(())
}

// A field in which a fault stands.
static FAULTY: Row = (
    "data N : Type where\n  C : ",
    "N -> ",
    "(x : = ",
    "",
    "",
    99,
    "3:507 8 =",
);

#[test]
fn limit_comes_before_faults_inside(rt: HostRuntime) -> Result<(), Fail> {
    assert_eq!(rt; verdict(rt.alloc(), &FAULTY, FAULTY.5)?.as_str(), FAULTY.6);
    assert_eq!(rt;
        verdict(rt.alloc(), &FAULTY, FAULTY.5.saturating_add(1))?.as_str(),
        "3:507 31 parameters, indices, fields, or patterns of one thing 101"
    );
    Ok(())
}
