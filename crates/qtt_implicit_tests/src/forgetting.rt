//! What was filled in is forgotten: each form of an expression and of a pattern, a clause of the
//! program with vectors, and what stays as it is.

use qtt_base::{GlobalId, ModuleId, Name, Span};
use qtt_implicit::forget;
use qtt_syntax::{
    Argument, Binder, Clause, ConDecl, Expr, FamilyDecl, Import, Item, Local, Mark, ModuleText,
    Named, Param, Pattern, SignatureDecl, Statement, Target, print,
};
use qtt_usage::mult::Mult;
use std::alloc::Global;
use std::test::Fail;

const PLACE: Span = Span {
    line: 1,
    col: 1,
    len: 1,
};

/// A text with what was filled in, or the same text as it was written.
#[derive(Clone, Copy, PartialEq, Eq)]
enum Version {
    Filled,
    Written,
}

impl Version {
    /// A local name's number, in the filled text and in the written one.
    fn number(self, filled: u32, written: u32) -> u32 {
        match self {
            Version::Filled => filled,
            Version::Written => written,
        }
    }
}

fn named(alloc: Global, path: &str, target: Target) -> Result<Named, Fail> {
    Ok(Named {
        path: Name::new(alloc, path)?,
        target,
        span: PLACE,
    })
}

/// An item of the module 1
fn item(alloc: Global, path: &str, number: u32) -> Result<Expr, Fail> {
    let id = GlobalId {
        module: ModuleId(1),
        item: number,
    };
    Ok(Expr::Name(named(alloc, path, Target::Global(id))?))
}

fn local(alloc: Global, path: &str, number: u32) -> Result<Expr, Fail> {
    Ok(Expr::Name(named(alloc, path, Target::Local(number))?))
}

fn bound(alloc: Global, name: &str) -> Result<Local, Fail> {
    Ok(Local {
        name: Name::new(alloc, name)?,
        span: PLACE,
    })
}

fn apply(alloc: Global, function: Expr, arguments: Vec<Argument>) -> Result<Expr, Fail> {
    Ok(Expr::Apply {
        function: Box::new(alloc, function)?,
        arguments,
        span: PLACE,
    })
}

fn variable(alloc: Global, mark: Mark, name: &str) -> Result<Pattern, Fail> {
    Ok(Pattern::Variable {
        mark,
        name: Name::new(alloc, name)?,
        span: PLACE,
    })
}

fn constructor(alloc: Global, name: &str, arguments: Vec<Pattern>) -> Result<Pattern, Fail> {
    Ok(Pattern::Constructor {
        mark: Mark::Written,
        head: named(alloc, name, Target::Unknown)?,
        arguments,
        span: PLACE,
    })
}

fn clause(alloc: Global, name: &str, patterns: Vec<Pattern>, side: Expr) -> Result<Item, Fail> {
    Ok(Item::Clause(Clause {
        name: Name::new(alloc, name)?,
        patterns,
        side,
        span: PLACE,
    }))
}

fn module_text(alloc: Global, items: Vec<Item>) -> Result<ModuleText, Fail> {
    Ok(ModuleText {
        header: PLACE,
        name: Name::new(alloc, "Main")?,
        name_span: PLACE,
        imports: vec![in alloc;
            Import {
                name: Name::new(alloc, "A")?,
                span: PLACE,
            },
        ]?,
        items,
    })
}

fn pi(alloc: Global, name: &str, domain: Expr, codomain: Expr) -> Result<Expr, Fail> {
    Ok(Expr::Pi {
        mark: Mark::Braced,
        mult: Mult::Zero,
        name: Name::new(alloc, name)?,
        domain: Box::new(alloc, domain)?,
        codomain: Box::new(alloc, codomain)?,
        span: PLACE,
    })
}

// ---- texts in both versions

/// `append '0 '1 '2 (Cons '3 x xs) ys = Cons {plus '3 '2} x (append {'0} {'3} {'2} xs ys)`, where
/// what is in braces was inserted
fn append(alloc: Global, version: Version) -> Result<Item, Fail> {
    let mut fields = Vec::new(alloc);
    let mut patterns = Vec::new(alloc);
    let mut inner = Vec::new(alloc);
    let mut outer = Vec::new(alloc);
    if version == Version::Filled {
        for name in ["'0", "'1", "'2"] {
            patterns.push(variable(alloc, Mark::Inserted, name)?)?;
        }
        fields.push(variable(alloc, Mark::Inserted, "'3")?)?;
        for (name, number) in [("'0", 6), ("'3", 3), ("'2", 4)] {
            inner.push(Argument::Inserted(local(alloc, name, number)?))?;
        }
        let sum = vec![in alloc;
            Argument::Written(local(alloc, "'3", 3)?),
            Argument::Written(local(alloc, "'2", 4)?),
        ]?;
        outer.push(Argument::Inserted(apply(alloc, item(alloc, "plus", 3)?, sum)?))?;
    }
    fields.push(variable(alloc, Mark::Written, "x")?)?;
    fields.push(variable(alloc, Mark::Written, "xs")?)?;
    patterns.push(constructor(alloc, "Cons", fields)?)?;
    patterns.push(variable(alloc, Mark::Written, "ys")?)?;
    inner.push(Argument::Written(local(alloc, "xs", 1)?))?;
    inner.push(Argument::Written(local(alloc, "ys", 0)?))?;
    outer.push(Argument::Written(local(alloc, "x", 2)?))?;
    let rest = apply(alloc, item(alloc, "append", 7)?, inner)?;
    outer.push(Argument::Written(rest))?;
    let side = apply(alloc, item(alloc, "Cons", 6)?, outer)?;
    clause(alloc, "append", patterns, side)
}

/// `id {Int} E`, `{Int}` inserted
fn id(alloc: Global, version: Version, e: Expr) -> Result<Expr, Fail> {
    let mut arguments = Vec::new(alloc);
    if version == Version::Filled {
        arguments.push(Argument::Inserted(item(alloc, "Int", 0)?))?;
    }
    arguments.push(Argument::Written(e))?;
    apply(alloc, item(alloc, "id", 1)?, arguments)
}

/// `let y : id Type = id n in \z (w : id z) => the (id y) (id n)`, where `n` is a variable of a
/// clause with an inserted variable behind it
fn of_binders(alloc: Global, version: Version) -> Result<Expr, Fail> {
    let universe = Expr::Type {
        level: 0,
        level_span: PLACE,
        span: PLACE,
    };
    let ty = id(alloc, version, local(alloc, "y", 2)?)?;
    let value = id(alloc, version, local(alloc, "n", version.number(4, 3))?)?;
    let body = Expr::The {
        ty: Box::new(alloc, ty)?,
        value: Box::new(alloc, value)?,
        span: PLACE,
    };
    let typed = Binder::Typed {
        mult: Mult::One,
        name: bound(alloc, "w")?,
        ty: id(alloc, version, local(alloc, "z", 0)?)?,
        span: PLACE,
    };
    let function = Expr::Lambda {
        binders: vec![in alloc; Binder::Plain(bound(alloc, "z")?), typed]?,
        body: Box::new(alloc, body)?,
        span: PLACE,
    };
    let bound_to = id(alloc, version, local(alloc, "n", version.number(1, 0))?)?;
    Ok(Expr::Let {
        mult: Mult::Many,
        name: bound(alloc, "y")?,
        ty: Some(Box::new(alloc, id(alloc, version, universe)?)?),
        value: Box::new(alloc, bound_to)?,
        body: Box::new(alloc, function)?,
        span: PLACE,
    })
}

/// `do y <- id n; let z = id y; id "text"; id 3; {0 a : id n} -> id n; id {?h} n`, where `{?h}`
/// was written
fn of_statements(alloc: Global, version: Version) -> Result<Expr, Fail> {
    let text = Expr::Text {
        value: b"text".to_vec(alloc)?,
        span: PLACE,
    };
    let number = Expr::Number {
        value: 3,
        span: PLACE,
    };
    let domain = id(alloc, version, local(alloc, "n", version.number(3, 2))?)?;
    let codomain = id(alloc, version, local(alloc, "n", version.number(4, 3))?)?;
    let hole = Expr::Hole {
        name: Name::new(alloc, "h")?,
        span: PLACE,
    };
    let n = local(alloc, "n", version.number(3, 2))?;
    let braces = vec![in alloc; Argument::Braced(hole), Argument::Written(n)]?;
    let mut statements = Vec::new(alloc);
    statements.push(Statement::Bind {
        name: bound(alloc, "y")?,
        value: id(alloc, version, local(alloc, "n", version.number(1, 0))?)?,
    })?;
    statements.push(Statement::Let {
        mult: Mult::Many,
        name: bound(alloc, "z")?,
        ty: None,
        value: id(alloc, version, local(alloc, "y", 0)?)?,
        span: PLACE,
    })?;
    for value in [
        id(alloc, version, text)?,
        id(alloc, version, number)?,
        pi(alloc, "a", domain, codomain)?,
        apply(alloc, item(alloc, "id", 1)?, braces)?,
    ] {
        statements.push(Statement::Run { value, span: PLACE })?;
    }
    Ok(Expr::Do {
        statements,
        span: PLACE,
    })
}

/// `f n '0 _ .(id n) = SIDE`
fn of_patterns(alloc: Global, version: Version, side: Expr) -> Result<Item, Fail> {
    let mut patterns = vec![in alloc; variable(alloc, Mark::Braced, "n")?]?;
    if version == Version::Filled {
        patterns.push(variable(alloc, Mark::Inserted, "'0")?)?;
    }
    patterns.push(Pattern::Wildcard {
        mark: Mark::Written,
        span: PLACE,
    })?;
    patterns.push(Pattern::Dot {
        mark: Mark::Written,
        value: id(alloc, version, local(alloc, "n", version.number(1, 0))?)?,
        span: PLACE,
    })?;
    clause(alloc, "f", patterns, side)
}

/// `data D (p : id Int) : id p where C : id p`, and `s : id Int`
fn of_items(alloc: Global, version: Version) -> Result<Vec<Item>, Fail> {
    let param = Param {
        mult: Mult::Many,
        name: Name::new(alloc, "p")?,
        ty: id(alloc, version, item(alloc, "Int", 0)?)?,
        span: PLACE,
    };
    let con = ConDecl {
        name: Name::new(alloc, "C")?,
        ty: id(alloc, version, local(alloc, "p", 0)?)?,
        span: PLACE,
    };
    let family = FamilyDecl {
        name: Name::new(alloc, "D")?,
        name_span: PLACE,
        params: vec![in alloc; param]?,
        ty: id(alloc, version, local(alloc, "p", 0)?)?,
        constructors: vec![in alloc; con]?,
        span: PLACE,
    };
    let signature = SignatureDecl {
        partial: true,
        mult: Mult::Zero,
        name: Name::new(alloc, "s")?,
        name_span: PLACE,
        ty: id(alloc, version, item(alloc, "Int", 0)?)?,
        span: PLACE,
    };
    Ok(vec![in alloc; Item::Family(family), Item::Signature(signature)]?)
}

fn shown(alloc: Global, text: &ModuleText) -> Result<String, Fail> {
    Ok(format!(in alloc; "{text:?}")?)
}

// ---- tests

#[test]
fn the_clause_with_vectors_is_forgotten(rt: HostRuntime) -> Result<(), Fail> {
    let alloc = rt.alloc();
    let filled = module_text(alloc, vec![in alloc; append(alloc, Version::Filled)?]?)?;
    let written = module_text(alloc, vec![in alloc; append(alloc, Version::Written)?]?)?;
    let forgotten = forget(alloc, &filled)?;
    assert_eq!(rt;
        shown(alloc, &forgotten)?.as_str(),
        shown(alloc, &written)?.as_str()
    );
    let text = print(alloc, &forgotten)?;
    let expected = "module Main\nimport A\nappend (Cons x xs) ys = Cons x (append xs ys)\n";
    assert_eq!(rt; text.as_slice(), expected.as_bytes());
    Ok(())
}

#[test]
fn each_form_is_forgotten(rt: HostRuntime) -> Result<(), Fail> {
    let alloc = rt.alloc();
    let mut texts = Vec::new(alloc);
    for version in [Version::Filled, Version::Written] {
        let mut items = of_items(alloc, version)?;
        items.push(of_patterns(alloc, version, of_binders(alloc, version)?)?)?;
        items.push(of_patterns(alloc, version, of_statements(alloc, version)?)?)?;
        texts.push(module_text(alloc, items)?)?;
    }
    assert_eq!(rt; texts.len(), 2);
    let forgotten = forget(alloc, &texts[0])?;
    assert_eq!(rt;
        shown(alloc, &forgotten)?.as_str(),
        shown(alloc, &texts[1])?.as_str()
    );
    assert_ne!(rt;
        shown(alloc, &texts[0])?.as_str(),
        shown(alloc, &texts[1])?.as_str()
    );
    // what was written stays as it is
    let again = forget(alloc, &forgotten)?;
    assert_eq!(rt;
        shown(alloc, &again)?.as_str(),
        shown(alloc, &forgotten)?.as_str()
    );
    Ok(())
}
