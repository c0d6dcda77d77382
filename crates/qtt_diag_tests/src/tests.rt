//! Lines of refusals, with ample memory.

use qtt_base::{Fault, Name, Quantity, Span};
use qtt_diag::{fault_detail, message};
use qtt_rules::{Detail, Refusal};
use qtt_syntax::{Mark, Named, Pattern, Target};
use qtt_term::{Globals, Question, Rule, Term};
use qtt_usage::mult::Mult;
use std::alloc::Global;
use std::test::Fail;

const SPAN: Span = Span {
    line: 3,
    col: 5,
    len: 1,
};

/// The line told of what is kept at one place of the module Main.
fn is_told(alloc: Global, detail: Detail, line: &str) -> Result<bool, Fail> {
    let refusal = Refusal {
        module: Name::new(alloc, "Main")?,
        span: SPAN,
        rule: Rule::Text,
        premise: 1,
        detail,
        names: Globals::prim(alloc)?,
    };
    Ok(message(alloc, &refusal)?.as_slice() == line.as_bytes())
}

/// The line told of a fault of reading at that place.
fn is_fault_told(
    alloc: Global,
    kind: u8,
    word: &[u8],
    count: u64,
    line: &str,
) -> Result<bool, Fail> {
    let fault = Fault {
        kind,
        span: SPAN,
        word: Vec::from_slice(alloc, word)?,
        count,
    };
    match fault_detail(alloc, fault)? {
        Some(detail) => is_told(alloc, detail, line),
        None => Ok(false),
    }
}

/// A pattern of a constructor of Main.
fn constructor(alloc: Global, name: &str, arguments: Vec<Pattern>) -> Result<Pattern, Fail> {
    let head = Named {
        path: Name::new(alloc, name)?,
        target: Target::Unknown,
        span: SPAN,
    };
    Ok(Pattern::Constructor {
        mark: Mark::Written,
        head,
        arguments,
        span: SPAN,
    })
}

fn wildcard() -> Pattern {
    Pattern::Wildcard {
        mark: Mark::Written,
        span: SPAN,
    }
}

#[test]
fn what_reading_refuses_is_told(rt: HostRuntime) -> Result<(), Fail> {
    let alloc = rt.alloc();
    assert!(rt; is_told(alloc, Detail::NotUtf8, "Main:3:5: 1 NotUtf8")?);
    let sign = Detail::BadCharacter { character: '#' };
    assert!(rt; is_told(alloc, sign, "Main:3:5: 2 BadCharacter U+0023")?);
    let name = Name::new(alloc, "A.y")?;
    assert!(rt; is_told(alloc, Detail::Unbound { name }, "Main:3:5: 10 Unbound A.y")?);
    let limit = Detail::Limit {
        quantity: Quantity::Clauses,
        count: 1001,
    };
    assert!(rt;
        is_told(
            alloc,
            limit,
            "Main:3:5: 31 Limit clauses of a definition 1001"
        )?
    );
    Ok(())
}

#[test]
fn premises_are_told(rt: HostRuntime) -> Result<(), Fail> {
    let alloc = rt.alloc();
    let mismatch = Detail::TypeMismatch {
        depth: 0,
        expected: Term::IntTy,
        found: Term::StringTy,
    };
    let line = "Main:3:5: 16 TypeMismatch expected Int found String";
    assert!(rt; is_told(alloc, mismatch, line)?);
    let dropped = Detail::WrongUsage {
        name: None,
        declared: Mult::One,
        used: Mult::Zero,
    };
    assert!(rt;
        is_told(
            alloc,
            dropped,
            "Main:3:5: 18 WrongUsage _ declared 1 used 0"
        )?
    );
    let spent = Detail::BudgetSpent {
        budget: 10,
        question: Question::Head(1, Term::Var(0)),
    };
    assert!(rt; is_told(alloc, spent, "Main:3:5: 24 BudgetSpent 10 head x0")?);
    let stuck = Detail::PatternStuck {
        depth: 2,
        left: Term::Var(1),
        right: Term::Var(0),
    };
    assert!(rt; is_told(alloc, stuck, "Main:3:5: 25 PatternStuck x0 = x1")?);
    Ok(())
}

#[test]
fn missing_clauses_are_told(rt: HostRuntime) -> Result<(), Fail> {
    let alloc = rt.alloc();
    let inner = constructor(alloc, "Main.S", vec![in alloc; wildcard()]?)?;
    let outer = constructor(alloc, "Main.S", vec![in alloc; inner]?)?;
    let zero = constructor(alloc, "Main.Z", Vec::new(alloc))?;
    let missing = Detail::Missing {
        definition: Name::new(alloc, "Main.f")?,
        patterns: vec![in alloc; wildcard(), outer, zero]?,
    };
    assert!(rt; is_told(alloc, missing, "Main:3:5: 28 Missing f _ (S (S _)) Z")?);
    Ok(())
}

#[test]
fn modules_and_holes_are_told(rt: HostRuntime) -> Result<(), Fail> {
    let alloc = rt.alloc();
    let other = Detail::WrongModuleName {
        expected: Name::new(alloc, "Main")?,
        found: Name::new(alloc, "A.Other")?,
    };
    let line = "Main:3:5: 32 WrongModuleName expected Main found A.Other";
    assert!(rt; is_told(alloc, other, line)?);
    let names = vec![in alloc; Name::new(alloc, "rest")?, Name::new(alloc, "more")?]?;
    assert!(rt;
        is_told(
            alloc,
            Detail::HasHoles { names },
            "Main:3:5: 37 HasHoles rest more"
        )?
    );
    let name = Name::new(alloc, "Main.f")?;
    assert!(rt;
        is_told(
            alloc,
            Detail::CoreRefused { name },
            "Main:3:5: 38 CoreRefused f"
        )?
    );
    Ok(())
}

#[test]
fn faults_of_reading_are_told(rt: HostRuntime) -> Result<(), Fail> {
    let alloc = rt.alloc();
    let picture = "\u{1F600}".as_bytes();
    assert!(rt; is_fault_told(alloc, 2, picture, 0, "Main:3:5: 2 BadCharacter U+1F600")?);
    assert!(rt; is_fault_told(alloc, 7, b"", 0, "Main:3:5: 7 BadIndent")?);
    assert!(rt; is_fault_told(alloc, 8, b"end", 0, "Main:3:5: 8 Unexpected end")?);
    assert!(rt; is_fault_told(alloc, 11, b"inc", 0, "Main:3:5: 11 Ambiguous inc")?);
    let statements = "Main:3:5: 31 Limit statements of a do 501";
    assert!(rt; is_fault_told(alloc, 31, b"statements of a do", 501, statements)?);
    assert!(rt; !is_fault_told(alloc, 31, b"statements", 501, statements)?);
    assert!(rt; !is_fault_told(alloc, 14, b"", 0, "Main:3:5: 14 NeedsType")?);
    Ok(())
}
