// The first bad token, with its found word, at each kind of place of the grammar.

use super::told;
use std::test::Fail;

static HEADERS: [(&str, &str); 5] = [
    ("module 3", "1:8 8 3"),
    ("module module", "1:8 8 module"),
    ("module Main x", "1:13 8 x"),
    ("module Main\nimport", "2:7 8 end"),
    ("module Main\nimport A b", "2:10 8 b"),
];

static ITEMS: [(&str, &str); 17] = [
    ("module Main\ndata nat : Type where", "2:6 8 nat"),
    ("module Main\ndata N a : Type where", "2:8 8 a"),
    ("module Main\ndata N (1 a : T) : Type where", "2:9 8 1"),
    ("module Main\ndata N (A.b : T) : Type where", "2:9 8 A.b"),
    ("module Main\ndata N : Type = a", "2:15 8 ="),
    ("module Main\ndata N : Type where\n  c : N", "3:3 8 c"),
    ("module Main\ndata N : Type where\n  C N", "3:5 8 N"),
    ("module Main\ndata N : Type where\n  C : N = a", "3:9 8 ="),
    ("module Main\npartial 1 f : A", "2:9 8 1"),
    ("module Main\npartial f = a", "2:11 8 ="),
    ("module Main\n0 f = a", "2:5 8 ="),
    ("module Main\nwhere", "2:1 8 where"),
    ("module Main\nf", "2:2 8 end"),
    ("module Main\nf : (x : A) B", "2:13 8 B"),
    ("module Main\nf : (2 x : A) -> b", "2:10 8 :"),
    ("module Main\nf : {0 a : T} b", "2:15 8 b"),
    ("module Main\nf : {a : T} -> b", "2:6 8 a"),
];

static PATTERNS: [(&str, &str); 7] = [
    ("module Main\nf x : A", "2:5 8 :"),
    ("module Main\nf 3 = a", "2:3 8 3"),
    ("module Main\nf \"b\" = a", "2:3 8 \"b\""),
    ("module Main\nf () = a", "2:4 8 )"),
    ("module Main\nf (x y) = a", "2:6 8 y"),
    ("module Main\nf (S x = a", "2:8 8 ="),
    ("module Main\nf .() = a", "2:5 8 )"),
];

static EXPRESSIONS: [(&str, &str); 22] = [
    ("module Main\nx = =", "2:5 8 ="),
    ("module Main\nx = \\ => a", "2:7 8 =>"),
    ("module Main\nx = \\y -> a", "2:8 8 ->"),
    ("module Main\nx = \\(y) => a", "2:8 8 )"),
    ("module Main\nx = let 2 = a in b", "2:9 8 2"),
    ("module Main\nx = let y a", "2:11 8 a"),
    ("module Main\nx = let y = a\nz = b", "3:1 8 next"),
    ("module Main\nx = let y = ?a in b", "2:13 8 ?a"),
    ("module Main\nx = the A", "2:10 8 end"),
    ("module Main\nx = f {}", "2:8 8 }"),
    ("module Main\nx = f {a", "2:9 8 end"),
    ("module Main\nx = 3 {a}", "2:7 8 {"),
    ("module Main\nx = f a {b}", "2:9 8 {"),
    ("module Main\nx = Type A.b -3 }", "2:17 8 }"),
    ("module Main\nx = a in b", "2:7 8 in"),
    ("module Main\nx = a => b", "2:7 8 =>"),
    ("module Main\nx = a\n  = b", "3:3 8 ="),
    ("module Main\nf : ?a", "2:5 8 ?a"),
    ("module Main\nx = do\n  f a <- b", "3:7 8 <-"),
    ("module Main\nx = do\n  let y = a", "3:12 8 end"),
    ("module Main\nx = (do\n  a\n  let y = b)", "4:12 8 close"),
    ("module Main\nx = (do\n  a\n  y <- b)", "4:9 8 close"),
];

#[test]
fn bad_tokens_at_each_kind_of_place(rt: HostRuntime) -> Result<(), Fail> {
    for &(text, expected) in HEADERS.iter().chain(&ITEMS) {
        assert_eq!(rt; told(rt.alloc(), text)?.as_str(), expected, "at {text}");
    }
    for &(text, expected) in PATTERNS.iter().chain(&EXPRESSIONS) {
        assert_eq!(rt; told(rt.alloc(), text)?.as_str(), expected, "at {text}");
    }
    Ok(())
}
