// Limits beside other faults: which of two faults is told, and texts that stay within them.

use super::told;
use std::alloc::Global;
use std::test::Fail;

// Parts that stand so often, one behind the other, below the line of the header; and what is told
// of the text.
type Row = (&'static [(&'static str, u32)], &'static str);

// Of two faults at one token: a bad one, then a level too deep, then a limit on counts.
static AT_ONE_TOKEN: [Row; 4] = [
    (
        &[("x = ", 1), ("(", 200), ("f let y = a in b", 1), (")", 200)],
        "2:207 8 let",
    ),
    (&[("f", 1), (" x", 100), (" 3 = a", 1)], "2:203 8 3"),
    (
        &[
            ("f ", 1),
            ("(S ", 200),
            ("x ", 100),
            ("(y)", 1),
            (")", 200),
            (" = a", 1),
        ],
        "2:803 9",
    ),
    (
        &[
            ("data N : Type where\n  C : ", 1),
            ("(", 100),
            ("N -> ", 100),
            ("(a : N) -> N", 1),
            (")", 100),
        ],
        "3:607 9",
    ),
];

// The clause that is one too many is known at the token behind its name; clauses of one name with
// others between them are counted anew.
static OF_CLAUSES: [Row; 4] = [
    (
        &[("f : Int -> Int", 1), ("\nf x = 0", 1_000), ("\nf )", 1)],
        "1003:3 8 )",
    ),
    (
        &[("f : Int -> Int", 1), ("\nf x = 0", 1_000), ("\nf x )", 1)],
        "1003:1 31 clauses of a definition 1001",
    ),
    (
        &[
            ("f : Int -> Int", 1),
            ("\nf x = 0", 600),
            ("\ng x = 0", 600),
        ],
        "a text",
    ),
    (
        &[
            ("f : Int", 1),
            ("\nf = 0", 600),
            ("\ng = 0", 1),
            ("\nf = 0", 600),
        ],
        "a text",
    ),
];

// What is told of a text of these parts; one that is read is not printed.
fn verdict(alloc: Global, parts: &[(&str, u32)]) -> Result<String, Fail> {
    let mut text = String::from_str(alloc, "module Main\n")?;
    for (part, times) in parts {
        for _ in 0..*times {
            text.push_str(part)?;
        }
    }
    let told = told(alloc, text.as_str())?;
    if told.as_bytes().starts_with(b"module") {
        return Ok(String::from_str(alloc, "a text")?);
    }
    Ok(told)
}

#[test]
fn limits_beside_other_faults(rt: HostRuntime) -> Result<(), Fail> {
    for &(parts, wanted) in AT_ONE_TOKEN.iter().chain(&OF_CLAUSES) {
        assert_eq!(rt; verdict(rt.alloc(), parts)?.as_str(), wanted);
    }
    Ok(())
}
