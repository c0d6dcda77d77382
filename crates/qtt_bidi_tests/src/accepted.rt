//! What is accepted, with its core.

use crate::texts::{Before, elaborated};
use std::test::Fail;

/// Texts, and the line of their last definition.
static PROGRAMS: [(&str, &str); 30] = [
    // variables, literals, names and universes
    (
        "id : (1 x : Int) -> Int\nid = \\x => x",
        "Main.id : ((1 x0 : Int) -> Int) = (\\(1 x0 : Int) => x0)",
    ),
    ("x : String\nx = \"a\"", "Main.x : String = \"a\""),
    ("x : Type 1\nx = Type", "Main.x : Type 1 = Type 0"),
    (
        "x : Type 1\nx = (a : Type) -> a",
        "Main.x : Type 1 = ((x0 : Type 0) -> x0)",
    ),
    ("x : Type\nx = IO Unit", "Main.x : Type 0 = (IO Unit)"),
    (
        "0 d : Int\nd = 3\n0 x : Int\nx = d",
        "0 Main.x : Int = Main.d",
    ),
    // functions and their arguments
    (
        "id : (1 x : Int) -> Int\nid = \\x => x\nmain : IO Unit\nmain = putLine (showInt (id 3))",
        "Main.main : (IO Unit) = (putLine (showInt (Main.id @1 3)))",
    ),
    (
        "x : Int -> Int -> Int\nx = \\y z => addInt z y",
        "Main.x : ((x0 : Int) -> ((x1 : Int) -> Int)) = \
            (\\(x0 : Int) => (\\(x1 : Int) => (addInt x1 x0)))",
    ),
    (
        "x : Int\nx = let f = \\(y : Int) => y in f 3",
        "Main.x : Int = ((\\(x0 : ((x0 : Int) -> Int)) => (x0 3)) (\\(x0 : Int) => x0))",
    ),
    // an erased argument is judged in the erased part
    (
        "drop : (0 y : Int) -> Int\ndrop = \\y => 3\nx : (0 z : Int) -> Int\nx = \\z => drop z",
        "Main.x : ((0 x0 : Int) -> Int) = (\\(0 x0 : Int) => (Main.drop @0 x0))",
    ),
    (
        "drop : (0 y : Int) -> (1 z : Int) -> Int\ndrop = \\y z => z\nx : (1 z : Int) -> Int\n\
            x = \\z => drop z z",
        "Main.x : ((1 x0 : Int) -> Int) = (\\(1 x0 : Int) => ((Main.drop @0 x0) @1 x0))",
    ),
    // the core keeps the domain of the function type, not the written one
    (
        "a : Type\na = Int\nx : a -> Int\nx = \\(y : Int) => 3",
        "Main.x : ((x0 : Main.a) -> Int) = (\\(x0 : Main.a) => 3)",
    ),
    // in the erased part no use is tested
    (
        "0 x : (1 y : Int) -> Int\nx = \\y => 3",
        "0 Main.x : ((1 x0 : Int) -> Int) = (\\(1 x0 : Int) => 3)",
    ),
    // constructors
    (
        "g : (0 x : Int) -> Eq Int x x\ng = \\x => Refl",
        "Main.g : ((0 x0 : Int) -> (Eq Int x0 x0)) = (\\(0 x0 : Int) => (Refl {Int} {x0}))",
    ),
    ("x : Line\nx = Got \"a\"", "Main.x : Line = (Got \"a\")"),
    (
        "x : Line\nx = let y = Got \"a\" in y",
        "Main.x : Line = ((\\(x0 : Line) => x0) (Got \"a\"))",
    ),
    // `let` and `the`
    (
        "x : Int\nx = let y : Int = 3 in y",
        "Main.x : Int = ((\\(x0 : Int) => x0) 3)",
    ),
    (
        "x : (0 y : Int) -> Int\nx = \\y => let 0 z = y in 3",
        "Main.x : ((0 x0 : Int) -> Int) = (\\(0 x0 : Int) => ((\\(0 x1 : Int) => 3) @0 x0))",
    ),
    (
        "x : Int\nx = let y = (let z = 3 in z) in y",
        "Main.x : Int = ((\\(x0 : Int) => x0) ((\\(x0 : Int) => x0) 3))",
    ),
    ("x : Int\nx = the Int 3", "Main.x : Int = 3"),
    (
        "x : Int\nx = (the (Int -> Int) (\\y => y)) 3",
        "Main.x : Int = ((\\(x0 : Int) => x0) 3)",
    ),
    // actions
    (
        "x : IO Int\nx = pure 3",
        "Main.x : (IO Int) = (pure {Int} 3)",
    ),
    (
        "x : IO1 Int\nx = pure1 3",
        "Main.x : (IO1 Int) = (pure1 {Int} 3)",
    ),
    (
        "x : (1 y : Int) -> IO1 Int\nx = \\y => pure1 y",
        "Main.x : ((1 x0 : Int) -> (IO1 Int)) = (\\(1 x0 : Int) => (pure1 {Int} x0))",
    ),
    (
        "x : IO Unit\nx = do putLine \"a\"",
        "Main.x : (IO Unit) = (putLine \"a\")",
    ),
    (
        "x : IO1 Handle\nx = open \"a\"",
        "Main.x : (IO1 Handle) = (open \"a\")",
    ),
    (
        "x : IO Line\nx = do\n  y <- getLine\n  pure y",
        "Main.x : (IO Line) = (bind {Line} {Line} getLine (\\(x0 : Line) => (pure {Line} x0)))",
    ),
    (
        "x : IO Unit\nx = do\n  let y = 3\n  putLine (showInt y)",
        "Main.x : (IO Unit) = ((\\(x0 : Int) => (putLine (showInt x0))) 3)",
    ),
    // a handle is used once, also by a function that is bound at 1
    (
        "main : IO Unit\nmain = do\n  h <- open \"a\"\n  h2 <- write h \"x\"\n  close h2",
        "Main.main : (IO Unit) = (bind1 {Handle} {Unit} (open \"a\") \
            (\\(1 x0 : Handle) => (bind1 {Handle} {Unit} (write x0 \"x\") \
            (\\(1 x1 : Handle) => (close x1)))))",
    ),
    (
        "main : IO Unit\nmain = do\n  h <- open \"a\"\n\
            \x20 let 1 f : Unit -> IO Unit = \\u => close h\n\
            \x20 f MkUnit",
        "Main.main : (IO Unit) = (bind1 {Handle} {Unit} (open \"a\") \
            (\\(1 x0 : Handle) => ((\\(1 x1 : ((x1 : Unit) -> (IO Unit))) => (x1 MkUnit)) \
            @1 (\\(x1 : Unit) => (close x0)))))",
    ),
];

#[test]
fn each_form_is_accepted(rt: HostRuntime) -> Result<(), Fail> {
    let alloc = rt.alloc();
    for &(text, line) in &PROGRAMS {
        assert_eq!(rt;
            elaborated(alloc, Before::Nothing, 1000, text)?.as_str(),
            line
        );
    }
    Ok(())
}

#[test]
fn a_type_is_compared_by_its_value(rt: HostRuntime) -> Result<(), Fail> {
    let alloc = rt.alloc();
    let text = "same : (n : Nat) -> (m : Nat) -> Eq Nat (plus (S n) m) (S (plus n m))\n\
        same = \\n m => Refl";
    assert_eq!(rt;
        elaborated(alloc, Before::Naturals, 4, text)?.as_str(),
        "Main.same : ((x0 : Main.Nat) -> ((x1 : Main.Nat) -> \
            (Eq Main.Nat ((Main.plus (Main.S x0)) x1) (Main.S ((Main.plus x0) x1))))) = \
            (\\(x0 : Main.Nat) => (\\(x1 : Main.Nat) => \
            (Refl {Main.Nat} {((Main.plus (Main.S x0)) x1)})))"
    );
    Ok(())
}
