//! What is refused at each premise of the rules, with its place, what it keeps, its rule and its
//! number.

use crate::texts::{Before, elaborated};
use std::test::Fail;

/// Texts, and the line of their refusal, behind which stand its rule and premise.
static TEXTS: [(&str, &str); 55] = [
    // a binder or a constructor without a type
    (
        "x : Int\nx = let y = \\z => z in 3",
        "Main:3:13: 14 NeedsType by LamSynth 1",
    ),
    (
        "x : Int\nx = let y = \\(a : 3) b => b in 3",
        "Main:3:13: 14 NeedsType by LamSynth 1",
    ),
    (
        "x : Int\nx = let y = Refl in 3",
        "Main:3:13: 14 NeedsType by ConSynth 1",
    ),
    (
        "x : Int\nx = let y = pure 1 in 3",
        "Main:3:13: 14 NeedsType by Pure 1",
    ),
    (
        "x : Int\nx = let y = pure1 1 in 3",
        "Main:3:13: 14 NeedsType by Pure 1",
    ),
    (
        "x : IO Int\nx = do\n  y <- pure 1\n  pure y",
        "Main:4:8: 14 NeedsType by Pure 1",
    ),
    (
        "x : Int\nx = let y = (do z <- getLine; pure z) in 3",
        "Main:3:14: 14 NeedsType by DoBind 1",
    ),
    // no function
    (
        "x : Int\nx = \\z => z",
        "Main:3:5: 15 NotAFunction Int by LamCheck 1",
    ),
    (
        "x : Int -> Int\nx = \\y z => y",
        "Main:3:5: 15 NotAFunction Int by LamCheck 1",
    ),
    (
        "id : Int -> Int\nid = \\y => y\nx : Int\nx = addInt (id 1 2) 3",
        "Main:5:13: 15 NotAFunction Int by App 2",
    ),
    // another type
    (
        "x : Int -> Int\nx = \\(y : String) => 3",
        "Main:3:5: 16 TypeMismatch expected Int found String by LamCheck 3",
    ),
    (
        "x : Eq Int 1 2\nx = Refl",
        "Main:3:5: 16 TypeMismatch expected (Eq Int 1 2) found (Eq Int 1 1) by ConCheck 4",
    ),
    (
        "x : Int\nx = \"a\"",
        "Main:3:5: 16 TypeMismatch expected Int found String by Switch 2",
    ),
    (
        "f : Int -> Int\nf = \\y => y\nx : Int\nx = f (f \"a\")",
        "Main:5:10: 16 TypeMismatch expected Int found String by Switch 2",
    ),
    // the first argument is judged first
    (
        "x : Int\nx = addInt \"a\" (showInt 3)",
        "Main:3:12: 16 TypeMismatch expected Int found String by Switch 2",
    ),
    (
        "x : Int\nx = addInt 1 (showInt 3)",
        "Main:3:15: 16 TypeMismatch expected Int found String by Switch 2",
    ),
    // another mark
    (
        "x : (1 y : Int) -> Int\nx = \\(y : Int) => y",
        "Main:3:5: 17 WrongQuantity expected 1 found many by LamCheck 2",
    ),
    // uses that do not fit
    (
        "x : Int\nx = let f = \\(1 y : Int) => 3 in 4",
        "Main:3:14: 18 WrongUsage y declared 1 used 0 by LamSynth 4",
    ),
    (
        "bad : (1 x : Int) -> Int\nbad = \\x => 3",
        "Main:3:8: 18 WrongUsage x declared 1 used 0 by LamCheck 5",
    ),
    (
        "x : (1 y : Int) -> Int\nx = \\_ => 3",
        "Main:3:6: 18 WrongUsage _ declared 1 used 0 by LamCheck 5",
    ),
    (
        "x : (1 y : Int) -> Int\nx = \\y => addInt y y",
        "Main:3:6: 18 WrongUsage y declared 1 used many by LamCheck 5",
    ),
    (
        "twice : Int -> Int\ntwice = \\y => addInt y y\nx : (1 z : Int) -> Int\nx = \\z => twice z",
        "Main:5:6: 18 WrongUsage z declared 1 used many by LamCheck 5",
    ),
    (
        "x : Int\nx = let 1 y = 3 in 4",
        "Main:3:11: 18 WrongUsage y declared 1 used 0 by Let 4",
    ),
    (
        "x : (1 y : Int) -> IO Int\nx = \\y => pure y",
        "Main:3:6: 18 WrongUsage y declared 1 used many by LamCheck 5",
    ),
    (
        "x : (1 y : Int) -> Int\nx = \\y => let z = y in z",
        "Main:3:6: 18 WrongUsage y declared 1 used many by LamCheck 5",
    ),
    (
        "x : IO Line\nx = do\n  open \"a\"\n  getLine",
        "Main:4:3: 18 WrongUsage _ declared 1 used 0 by DoBind 6",
    ),
    (
        "main : IO Unit\nmain = do\n  h <- open \"a\"\n  pure MkUnit",
        "Main:4:3: 18 WrongUsage h declared 1 used 0 by DoBind 6",
    ),
    (
        "main : IO Unit\nmain = do\n  h <- open \"a\"\n  close h\n  close h",
        "Main:4:3: 18 WrongUsage h declared 1 used many by DoBind 6",
    ),
    (
        "main : IO Unit\nmain = do\n  h <- open \"a\"\n  let f : Unit -> IO Unit = \\u => close h\n\
            \x20 f MkUnit",
        "Main:4:3: 18 WrongUsage h declared 1 used many by DoBind 6",
    ),
    // no type
    ("x : 3\nx = 3", "Main:2:5: 19 NotAType Int by Families 8"),
    (
        "x : Type\nx = 3 -> Int",
        "Main:3:5: 19 NotAType Int by Pi 1",
    ),
    (
        "x : Type\nx = Int -> 3",
        "Main:3:12: 19 NotAType Int by Pi 2",
    ),
    (
        "x : Int\nx = let f = \\(y : 3) => 4 in 5",
        "Main:3:19: 19 NotAType Int by LamSynth 2",
    ),
    (
        "x : Int -> Int\nx = \\(y : 3) => 4",
        "Main:3:11: 19 NotAType Int by LamCheck 3",
    ),
    (
        "x : Int\nx = let y : 3 = 4 in 5",
        "Main:3:13: 19 NotAType Int by Let 1",
    ),
    ("x : Int\nx = the 3 4", "Main:3:9: 19 NotAType Int by The 1"),
    // too many or too few arguments
    (
        "x : Type\nx = Eq Int",
        "Main:3:5: 21 WrongArity expected 3 found 1 by Family 1",
    ),
    (
        "x : Type\nx = Int 3",
        "Main:3:5: 21 WrongArity expected 0 found 1 by Family 1",
    ),
    (
        "x : Type\nx = IO",
        "Main:3:5: 21 WrongArity expected 1 found 0 by Family 1",
    ),
    (
        "x : Int\nx = let y = Got in 3",
        "Main:3:13: 21 WrongArity expected 1 found 0 by ConSynth 2",
    ),
    (
        "x : Line\nx = Got",
        "Main:3:5: 21 WrongArity expected 1 found 0 by ConCheck 2",
    ),
    (
        "x : Int\nx = addInt 1",
        "Main:3:5: 21 WrongArity expected 2 found 1 by Prim 1",
    ),
    (
        "x : IO Unit\nx = putLine",
        "Main:3:5: 21 WrongArity expected 1 found 0 by Act 1",
    ),
    (
        "x : IO Int\nx = pure 1 2",
        "Main:3:5: 21 WrongArity expected 1 found 2 by Pure 3",
    ),
    (
        "x : IO1 Int\nx = pure1 1 2",
        "Main:3:5: 21 WrongArity expected 1 found 2 by Pure 3",
    ),
    // another family
    (
        "x : Int\nx = True",
        "Main:3:5: 22 NotAFamily Int by ConCheck 1",
    ),
    // an erased name at run time
    (
        "f : (0 x : Int) -> Int\nf = \\x => x",
        "Main:3:11: 23 ErasedUse x0 by Var 1",
    ),
    (
        "0 d : Int\nd = 3\nx : Int\nx = d",
        "Main:5:5: 23 ErasedUse Main.d by Global 1",
    ),
    (
        "x : (0 y : Int) -> Int\nx = \\y => let z = y in 3",
        "Main:3:19: 23 ErasedUse x0 by Var 1",
    ),
    // no action
    (
        "x : Int\nx = pure 1",
        "Main:3:5: 35 NotAnAction Int by Pure 2",
    ),
    (
        "x : IO1 Int\nx = pure 1",
        "Main:3:5: 35 NotAnAction (IO1 Int) by Pure 2",
    ),
    (
        "x : IO Int\nx = pure1 1",
        "Main:3:5: 35 NotAnAction (IO Int) by Pure 2",
    ),
    (
        "x : Int\nx = do\n  y <- getLine\n  pure y",
        "Main:3:5: 35 NotAnAction Int by DoBind 2",
    ),
    (
        "x : IO Int\nx = do\n  y <- 3\n  pure y",
        "Main:4:8: 35 NotAnAction Int by DoBind 4",
    ),
    (
        "x : Int\nx = do\n  let z = 3\n  y <- getLine\n  pure y",
        "Main:5:3: 35 NotAnAction Int by DoBind 2",
    ),
];

#[test]
fn each_premise_is_refused(rt: HostRuntime) -> Result<(), Fail> {
    let alloc = rt.alloc();
    for &(text, line) in &TEXTS {
        assert_eq!(rt;
            elaborated(alloc, Before::Nothing, 1000, text)?.as_str(),
            line
        );
    }
    Ok(())
}

#[test]
fn a_sum_with_zero_is_not_its_number(rt: HostRuntime) -> Result<(), Fail> {
    let alloc = rt.alloc();
    let text = "same : (n : Nat) -> Eq Nat (plus n Z) n\nsame = \\n => Refl";
    assert_eq!(rt;
        elaborated(alloc, Before::Naturals, 1000, text)?.as_str(),
        "Main:9:14: 16 TypeMismatch expected (Eq Main.Nat ((Main.plus x0) Main.Z) x0) \
            found (Eq Main.Nat ((Main.plus x0) Main.Z) ((Main.plus x0) Main.Z)) by ConCheck 4"
    );
    Ok(())
}
