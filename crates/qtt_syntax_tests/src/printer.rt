//! Printed trees.

use qtt_base::{Name, Span};
use qtt_syntax::{
    Argument, Clause, ConDecl, Expr, FamilyDecl, Item, Mark, ModuleText, Named, Pattern, Target,
    print,
};
use qtt_usage::mult::Mult;
use std::alloc::Global;
use std::test::Fail;

const HERE: Span = Span {
    line: 1,
    col: 1,
    len: 1,
};

fn name(alloc: Global, text: &str) -> Result<Expr, Fail> {
    let path = Name::new(alloc, text)?;
    Ok(Expr::Name(Named {
        path,
        target: Target::Unknown,
        span: HERE,
    }))
}

fn apply(alloc: Global, head: &str, arguments: Vec<Argument>) -> Result<Expr, Fail> {
    let function = Box::new(alloc, name(alloc, head)?)?;
    Ok(Expr::Apply {
        function,
        arguments,
        span: HERE,
    })
}

/// `(0 k : Nat) -> B`, or `A -> B` where the name is `_`.
fn pi(alloc: Global, mult: Mult, text: &str, domain: Expr, codomain: Expr) -> Result<Expr, Fail> {
    Ok(Expr::Pi {
        mark: Mark::Written,
        mult,
        name: Name::new(alloc, text)?,
        domain: Box::new(alloc, domain)?,
        codomain: Box::new(alloc, codomain)?,
        span: HERE,
    })
}

fn universe() -> Expr {
    Expr::Type {
        level: 0,
        level_span: HERE,
        span: HERE,
    }
}

/// `data Nat : Type where`, with `Z : Nat` and `S : Nat -> Nat`.
fn nat(alloc: Global) -> Result<Item, Fail> {
    let successor = pi(
        alloc,
        Mult::Many,
        "_",
        name(alloc, "Nat")?,
        name(alloc, "Nat")?,
    )?;
    let zero = ConDecl {
        name: Name::new(alloc, "Z")?,
        ty: name(alloc, "Nat")?,
        span: HERE,
    };
    let successor = ConDecl {
        name: Name::new(alloc, "S")?,
        ty: successor,
        span: HERE,
    };
    Ok(Item::Family(FamilyDecl {
        name: Name::new(alloc, "Nat")?,
        name_span: HERE,
        params: Vec::new(alloc),
        ty: universe(),
        constructors: vec![in alloc; zero, successor]?,
        span: HERE,
    }))
}

/// `plus (S n) m = S (plus n m)`
fn plus(alloc: Global) -> Result<Item, Fail> {
    let arguments = vec![in alloc; variable(alloc, "n")?]?;
    let head = Named {
        path: Name::new(alloc, "S")?,
        target: Target::Unknown,
        span: HERE,
    };
    let successor = Pattern::Constructor {
        mark: Mark::Written,
        head,
        arguments,
        span: HERE,
    };
    let (n, m) = (name(alloc, "n")?, name(alloc, "m")?);
    let sum = apply(
        alloc,
        "plus",
        vec![in alloc; Argument::Written(n), Argument::Written(m)]?,
    )?;
    Ok(Item::Clause(Clause {
        name: Name::new(alloc, "plus")?,
        patterns: vec![in alloc; successor, variable(alloc, "m")?]?,
        side: apply(alloc, "S", vec![in alloc; Argument::Written(sum)]?)?,
        span: HERE,
    }))
}

fn variable(alloc: Global, text: &str) -> Result<Pattern, Fail> {
    Ok(Pattern::Variable {
        mark: Mark::Written,
        name: Name::new(alloc, text)?,
        span: HERE,
    })
}

/// The first lines of an ordinary program.
#[test]
fn prints_a_family_and_a_clause(rt: HostRuntime) -> Result<(), Fail> {
    let alloc = rt.alloc();
    let text = ModuleText {
        header: HERE,
        name: Name::new(alloc, "Main")?,
        name_span: HERE,
        imports: Vec::new(alloc),
        items: vec![in alloc; nat(alloc)?, plus(alloc)?]?,
    };
    let printed = print(alloc, &text)?;
    let wanted =
        b"module Main\ndata Nat : Type where\n  Z : Nat\n  S : Nat -> Nat\nplus (S n) m = S (plus n m)\n";
    assert_eq!(rt; printed.as_slice(), wanted.as_slice());
    Ok(())
}
