//! What is filled in: programs as they are printed, and refusals with their places.

use indexmap::IndexMap;
use qtt_base::{GlobalId, ModuleId, Name, Span};
use qtt_grammar::parse;
use qtt_implicit::{FilledText, ImplicitError, fill, forget};
use qtt_layout::blocks;
use qtt_lexer::lex;
use qtt_names::{Exports, Scope, resolve};
use qtt_syntax::{ModuleText, print};
use std::alloc::Global;
use std::test::Fail;

const MAIN: ModuleId = ModuleId(1);

/// The tree of a text, with what its names stand for.
fn read(
    alloc: Global,
    module: ModuleId,
    text: &str,
    imports: &[Exports],
) -> Result<ModuleText, Fail> {
    if text.len() > 100_000 {
        return Err(Fail::from("the text is too long for a test"));
    }
    let Ok(tokens) = lex(alloc, text.as_bytes()) else {
        return Err(Fail::from("the text has no tokens"));
    };
    let Ok(laid) = blocks(alloc, &tokens) else {
        return Err(Fail::from("the tokens have no blocks"));
    };
    let Ok(tree) = parse(alloc, &laid) else {
        return Err(Fail::from("the blocks have no tree"));
    };
    let scope = Scope::new(alloc, module, &tree, imports)?;
    match resolve(alloc, &tree, &scope) {
        Ok(resolved) => Ok(resolved),
        Err(_) => Err(Fail::from("a name is not found")),
    }
}

fn printed(alloc: Global, text: &ModuleText) -> Result<String, Fail> {
    let bytes = print(alloc, text)?;
    let mut out = String::new(alloc);
    out.push_str(str::from_utf8(bytes.as_slice()).ok().unwrap_or("?"))?;
    Ok(out)
}

fn place(span: Span) -> (u32, u32) {
    (span.line, span.col)
}

/// What a refusal says, as its place and what it keeps.
fn told(alloc: Global, error: &ImplicitError) -> Result<String, Fail> {
    match error {
        ImplicitError::Unsolved(name, span) => {
            let (line, col) = place(*span);
            Ok(format!(in alloc; "{line}:{col} unsolved {}", name.as_str())?)
        }
        ImplicitError::Braces(most, found, span) => {
            let (line, col) = place(*span);
            Ok(format!(in alloc; "{line}:{col} braces {most} {found}")?)
        }
        ImplicitError::TooLarge(count, span) => {
            let (line, col) = place(*span);
            Ok(format!(in alloc; "{line}:{col} too large {count}")?)
        }
        ImplicitError::Memory => Err(Fail::from("no memory")),
    }
}

/// A text as it is printed with what is filled in, or its refusal.
fn filled(alloc: Global, text: &str) -> Result<String, Fail> {
    let tree = read(alloc, MAIN, text, &[])?;
    match fill(alloc, MAIN, &tree, &[]) {
        Ok(filled) => printed(alloc, &filled.text),
        Err(error) => told(alloc, &error),
    }
}

/// Whether what is printed of a text that stands behind another ends so, or its refusal.
fn ends(alloc: Global, front: &str, text: &str, expected: &str) -> Result<bool, Fail> {
    let mut whole = String::new(alloc);
    whole.push_str(front)?;
    whole.push_str(text)?;
    let found = filled(alloc, whole.as_str())?;
    Ok(found.as_str().ends_with(expected))
}

const VECTORS: &str = "module Main
data Nat : Type where
  Z : Nat
  S : Nat -> Nat
plus : Nat -> Nat -> Nat
plus Z m = m
plus (S n) m = S (plus n m)
data Vect (a : Type) : Nat -> Type where
  Nil : Vect a Z
  Cons : {0 k : Nat} -> (1 x : a) -> (1 xs : Vect a k) -> Vect a (S k)
append : {0 a : Type} -> {0 m : Nat} -> {0 n : Nat} -> (1 xs : Vect a m) -> (1 ys : Vect a n) -> Vect a (plus m n)
append Nil ys = ys
append (Cons x xs) ys = Cons x (append xs ys)
total : {0 n : Nat} -> Vect Int n -> Int
total Nil = 0
total (Cons x xs) = addInt x (total xs)
main : IO Unit
main = putLine (showInt (total (append (Cons 4 (Cons 5 Nil)) (Cons 6 Nil))))
";

const FILLED_CLAUSES: &str = "append '0 '1 '2 Nil ys = ys
append '0 '1 '2 (Cons '3 x xs) ys = Cons {plus '3 '2} x (append {'0} {'3} {'2} xs ys)
total : {0 n : Nat} -> Vect Int n -> Int
total '0 Nil = 0
total '0 (Cons '1 x xs) = addInt x (total {'1} xs)
main : IO Unit
main = putLine (showInt (total {plus (S (S Z)) (S Z)} (append {Int} {S (S Z)} {S Z} (Cons {S Z} 4 (Cons {Z} 5 Nil)) (Cons {Z} 6 Nil))))
";

/// The same program, where every argument is written, and `v` stands for the `'` of the names that
/// are put in.
const WRITTEN_OUT: &str = "module Main
data Nat : Type where
  Z : Nat
  S : Nat -> Nat
plus : Nat -> Nat -> Nat
plus Z m = m
plus (S n) m = S (plus n m)
data Vect (a : Type) : Nat -> Type where
  Nil : Vect a Z
  Cons : (0 k : Nat) -> (1 x : a) -> (1 xs : Vect a k) -> Vect a (S k)
append : (0 a : Type) -> (0 m : Nat) -> (0 n : Nat) -> (1 xs : Vect a m) -> (1 ys : Vect a n) -> Vect a (plus m n)
append v0 v1 v2 Nil ys = ys
append v0 v1 v2 (Cons v3 x xs) ys = Cons (plus v3 v2) x (append v0 v3 v2 xs ys)
total : (0 n : Nat) -> Vect Int n -> Int
total v0 Nil = 0
total v0 (Cons v1 x xs) = addInt x (total v1 xs)
main : IO Unit
main = putLine (showInt (total (plus (S (S Z)) (S Z)) (append Int (S (S Z)) (S Z) (Cons (S Z) 4 (Cons Z 5 Nil)) (Cons Z 6 Nil))))
";

#[test]
fn the_program_with_vectors_is_filled(rt: HostRuntime) -> Result<(), Fail> {
    let alloc = rt.alloc();
    let tree = read(alloc, MAIN, VECTORS, &[])?;
    let Ok(FilledText { text, sigs }) = fill(alloc, MAIN, &tree, &[]) else {
        return Err(Fail::from("the text is refused"));
    };
    assert!(rt; printed(alloc, &text)?.as_str().ends_with(FILLED_CLAUSES));
    // families, constructors and signatures, in turn
    assert_eq!(rt; sigs.len(), 10);
    let braces = [0, 0, 0, 0, 0, 0, 1, 3, 1, 0];
    for (sig, braces) in sigs.iter().zip(braces) {
        assert_eq!(rt; sig.braces, braces);
    }
    assert_eq!(rt; sigs[6].params, 1);
    // and forgotten again
    let forgotten = forget(alloc, &text)?;
    assert_eq!(rt;
        printed(alloc, &forgotten)?.as_str(),
        printed(alloc, &tree)?.as_str()
    );
    Ok(())
}

/// A program as it is printed, with brackets in place of braces, round what has more than one
/// word.
fn in_brackets(alloc: Global, text: &str) -> Result<String, Fail> {
    let mut out = String::new(alloc);
    for piece in text.split('{') {
        match piece.split_once('}') {
            None => out.push_str(piece)?,
            Some((inside, behind)) if inside.contains(' ') => {
                write!(out, "({inside}){behind}")?;
            }
            Some((inside, behind)) => write!(out, "{inside}{behind}")?,
        }
    }
    Ok(out)
}

#[test]
fn it_is_the_program_that_is_written_out(rt: HostRuntime) -> Result<(), Fail> {
    let alloc = rt.alloc();
    let tree = read(alloc, MAIN, WRITTEN_OUT, &[])?;
    let found = in_brackets(alloc, filled(alloc, VECTORS)?.as_str())?;
    let expected = printed(alloc, &tree)?;
    assert_eq!(rt;
        found.as_str().replace(alloc, "'", "v")?.as_str(),
        expected.as_str()
    );
    Ok(())
}

#[test]
fn what_is_written_out_is_filled_with_itself(rt: HostRuntime) -> Result<(), Fail> {
    let alloc = rt.alloc();
    let tree = read(alloc, MAIN, WRITTEN_OUT, &[])?;
    assert_eq!(rt;
        filled(alloc, WRITTEN_OUT)?.as_str(),
        printed(alloc, &tree)?.as_str()
    );
    Ok(())
}

const EMPTY: &str = "module Main\nempty : {0 a : Type} -> Int\nempty = 0\nx : Int\n";

const ID: &str = "module Main\nid : {0 a : Type} -> a -> a\nid x = x\n";

/// Texts behind `empty` or `id`, and their last line as it is printed with what is filled in.
static LINES: [(&str, &str, &str); 21] = [
    (EMPTY, "x = empty", "5:5 unsolved a"),
    (EMPTY, "x = empty {Int}", "x = empty {Int}\n"),
    (EMPTY, "x = empty {Int} {Int}", "5:5 braces 1 2"),
    (ID, "x : Int -> Int\nx y = y {Int}", "5:7 braces 0 1"),
    (ID, "x : Int\nx = id 3", "x = id {Int} 3\n"),
    (
        ID,
        "x : Int\nx = let y = 3 in id y",
        "x = let y = 3 in id {Int} y\n",
    ),
    (
        ID,
        "x : Int\nx = let y : Int = id 3 in id y",
        "x = let y : Int = id {Int} 3 in id {Int} y\n",
    ),
    (
        ID,
        "x : IO Int\nx = do\n  y <- pure 3\n  pure (id y)",
        "  pure (id {Int} y)\n",
    ),
    (
        ID,
        "x : Int\nx = let p = addInt 1 in id (p 2)",
        "x = let p = addInt 1 in id {Int} (p 2)\n",
    ),
    (
        ID,
        "x : Int\nx = id (id (addInt 1) 3)",
        "x = id {Int} (id {Int -> Int} (addInt 1) 3)\n",
    ),
    (ID, "x : String\nx = id \"a\"", "x = id {String} \"a\"\n"),
    (ID, "x : Type\nx = id Int", "x = id {Type} Int\n"),
    (
        ID,
        "x : Int\nx = id (the Int 3)",
        "x = id {Int} (the Int 3)\n",
    ),
    (
        ID,
        "x : Int -> Int\nx = \\(y : Int) => id y",
        "x = \\(y : Int) => id {Int} y\n",
    ),
    (ID, "x : Int -> Int\nx = \\y => id y", "5:11 unsolved a"),
    (
        ID,
        "x : Int -> Int\nx _ = id {Int} {Int} (id id)",
        "5:26 unsolved a",
    ),
    (
        EMPTY,
        "x = addInt empty (empty {Int} {Int})",
        "5:12 unsolved a",
    ),
    (EMPTY, "x = empty {empty} {Int}", "5:12 unsolved a"),
    (
        ID,
        "x : Eq Type (id Int) Int\nx = id Refl",
        "5:5 unsolved a",
    ),
    (
        PAIR,
        "x = id (MkP 3 \"a\")",
        "x = id {P Int String} (MkP 3 \"a\")\n",
    ),
    (PAIR, "x = id (MkP 3)", "7:5 unsolved a"),
];

#[test]
fn each_line_is_filled(rt: HostRuntime) -> Result<(), Fail> {
    let alloc = rt.alloc();
    for &(front, text, expected) in &LINES {
        assert!(rt; ends(alloc, front, text, expected)?);
    }
    Ok(())
}

const BOX: &str = "module Main
data Nat : Type where
  Z : Nat
  S : Nat -> Nat
data Box (a : Type) : Nat -> Type where
  Full : {0 k : Nat} -> a -> Box a (S k)
";

/// Constructors with a field in braces, in patterns and in expressions; the family's parameter
/// stands in a slot.
static BOXES: [(&str, &str); 5] = [
    (
        "open_box : {0 a : Type} -> {0 n : Nat} -> Box a n -> a\nopen_box (Full x) = x",
        "open_box '0 '1 (Full '2 x) = x\n",
    ),
    (
        "again : {0 a : Type} -> {0 n : Nat} -> Box a (S n) -> Box a (S n)\nagain (Full x) = again (Full {Z} x)",
        "again '0 '1 (Full '2 x) = again {'0} {Z} (Full {Z} x)\n",
    ),
    ("one : Box Int (S Z)\none = Full 3", "8:7 unsolved k"),
    (
        "any : {0 a : Type} -> {0 n : Nat} -> Box a n -> Int\nany _ = 3",
        "any '0 '1 _ = 3\n",
    ),
    // what is inserted holds what was inserted
    (
        "id : {0 a : Type} -> a -> a\nid x = x\nkeep : {0 a : Type} -> {0 n : Nat} -> Box a n -> Box a n\nkeep b = b\nv : Box Int (id (S Z))\nv = keep v",
        "v = keep {Int} {id {Nat} (S Z)} v\n",
    ),
];

#[test]
fn fields_in_braces_are_filled(rt: HostRuntime) -> Result<(), Fail> {
    let alloc = rt.alloc();
    for &(text, expected) in &BOXES {
        assert!(rt; ends(alloc, BOX, text, expected)?);
    }
    Ok(())
}

const PAIR: &str = "module Main
data P (a : Type) (b : Type) : Type where
  MkP : a -> b -> P a b
id : {0 a : Type} -> a -> a
id x = x
x : Int
";

/// The line `x = let y0 = 3 in let y1 = MkP y0 y0 in .. in LAST`, where each type has more than
/// twice the nodes of the one before.
fn doubled(alloc: Global, times: u32, last: &str) -> Result<String, Fail> {
    let mut line = String::new(alloc);
    line.push_str("x = let y0 = 3 in ")?;
    for newer in 1..times {
        let older = newer - 1;
        write!(line, "let y{newer} = MkP y{older} y{older} in ")?;
    }
    line.push_str(last)?;
    line.push_str("\n")?;
    Ok(line)
}

#[test]
fn types_that_double_are_shared(rt: HostRuntime) -> Result<(), Fail> {
    let alloc = rt.alloc();
    let many = doubled(alloc, 41, "3")?;
    assert!(rt; ends(alloc, PAIR, many.as_str(), many.as_str())?);
    let few = doubled(alloc, 3, "id y2")?;
    let expected = "in id {P (P Int Int) (P Int Int)} y2\n";
    assert!(rt; ends(alloc, PAIR, few.as_str(), expected)?);
    let most = doubled(alloc, 41, "id y40")?;
    assert!(rt; ends(alloc, PAIR, most.as_str(), "7:1 too large 1000001")?);
    Ok(())
}

/// What a module exports is filled in where it is imported.
#[test]
fn imported_names_are_filled(rt: HostRuntime) -> Result<(), Fail> {
    let alloc = rt.alloc();
    let module = ModuleId(2);
    let text = "module A\nid : {0 a : Type} -> a -> a\nid x = x\n";
    let tree = read(alloc, module, text, &[])?;
    let Ok(FilledText { sigs, .. }) = fill(alloc, module, &tree, &[]) else {
        return Err(Fail::from("the imported text is refused"));
    };
    let mut items = IndexMap::new(alloc);
    items.insert(Name::new(alloc, "id")?, GlobalId { module, item: 0 })?;
    let exports = [Exports {
        module,
        name: Name::new(alloc, "A")?,
        items,
        sigs,
    }];
    let main = read(
        alloc,
        MAIN,
        "module Main\nimport A\nx : Int\nx = id 3",
        &exports,
    )?;
    let Ok(FilledText { text, .. }) = fill(alloc, MAIN, &main, &exports) else {
        return Err(Fail::from("the text is refused"));
    };
    assert_eq!(rt;
        printed(alloc, &text)?.as_str(),
        "module Main\nimport A\nx : Int\nx = id {Int} 3\n"
    );
    Ok(())
}
