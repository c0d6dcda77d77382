//! A hole behind two handles, and behind one that was closed twice.

use qtt_base::{GlobalId, ModuleId, Name, Span};
use qtt_conv::BySubst;
use qtt_holes::{Hole, walk};
use qtt_rules::{Detail, ElabError};
use qtt_syntax::{Argument, Expr, Local, Named, Statement, Target};
use qtt_term::{Ctx, Globals, IoKind, Rule, Sigma, Term};
use qtt_usage::mult::Mult;
use std::alloc::Global;
use std::test::Fail;

fn at(line: u32, col: u32) -> Span {
    Span { line, col, len: 1 }
}

fn local(alloc: Global, name: &str, span: Span) -> Result<Local, Fail> {
    Ok(Local {
        name: Name::new(alloc, name)?,
        span,
    })
}

fn name(alloc: Global, text: &str, target: Target, span: Span) -> Result<Expr, Fail> {
    Ok(Expr::Name(Named {
        path: Name::new(alloc, text)?,
        target,
        span,
    }))
}

/// An action of the module Prim at its arguments.
fn call(
    alloc: Global,
    action: &str,
    number: u32,
    arguments: Vec<Argument>,
    span: Span,
) -> Result<Expr, Fail> {
    let id = GlobalId {
        module: ModuleId(0),
        item: number,
    };
    Ok(Expr::Apply {
        function: Box::new(alloc, name(alloc, action, Target::Global(id), span)?)?,
        arguments,
        span,
    })
}

/// `h <- open "a"`
fn opens(alloc: Global) -> Result<Statement, Fail> {
    let file = Expr::Text {
        value: Vec::from_array(alloc, [b'a'])?,
        span: at(4, 13),
    };
    Ok(Statement::Bind {
        name: local(alloc, "h", at(4, 3))?,
        value: call(
            alloc,
            "open",
            29,
            vec![in alloc; Argument::Written(file)]?,
            at(4, 8),
        )?,
    })
}

/// `h2 <- write h "x"`, of the newest handle.
fn writes(alloc: Global) -> Result<Statement, Fail> {
    let handle = name(alloc, "h", Target::Local(0), at(5, 15))?;
    let line = Expr::Text {
        value: Vec::from_array(alloc, [b'x'])?,
        span: at(5, 17),
    };
    let arguments = vec![in alloc; Argument::Written(handle), Argument::Written(line)]?;
    Ok(Statement::Bind {
        name: local(alloc, "h2", at(5, 3))?,
        value: call(alloc, "write", 30, arguments, at(5, 9))?,
    })
}

/// `close h`, of the newest handle.
fn closes(alloc: Global, line: u32) -> Result<Statement, Fail> {
    let handle = name(alloc, "h", Target::Local(0), at(line, 9))?;
    Ok(Statement::Run {
        value: call(
            alloc,
            "close",
            31,
            vec![in alloc; Argument::Written(handle)]?,
            at(line, 3),
        )?,
        span: at(line, 3),
    })
}

/// `?rest`
fn rest(alloc: Global, line: u32) -> Result<Statement, Fail> {
    let hole = Expr::Hole {
        name: Name::new(alloc, "rest")?,
        span: at(line, 3),
    };
    Ok(Statement::Run {
        value: hole,
        span: at(line, 3),
    })
}

/// The hole of a block of type `IO Int`, where nothing is in sight.
fn walked(alloc: Global, statements: Vec<Statement>) -> Result<Result<Hole, ElabError>, Fail> {
    let globals = Globals::prim(alloc)?;
    let context = Ctx {
        vars: Vec::new(alloc),
        names: Vec::new(alloc),
    };
    let block = Expr::Do {
        statements,
        span: at(3, 8),
    };
    let ty = Term::IoTy(IoKind::Io, Box::new(alloc, Term::IntTy)?);
    Ok(walk(
        alloc,
        &BySubst,
        100,
        &globals,
        &context,
        &[],
        &[],
        Sigma::Run,
        &block,
        &ty,
    ))
}

#[test]
fn a_handle_that_was_written_to_is_used_up(rt: HostRuntime) -> Result<(), Fail> {
    let alloc = rt.alloc();
    let statements = vec![in alloc; opens(alloc)?, writes(alloc)?, rest(alloc, 6)?]?;
    let Ok(hole) = walked(alloc, statements)? else {
        return Err(Fail::from("the walk is refused"));
    };
    assert!(rt; hole.name.as_str() == "rest");
    assert_eq!(rt; hole.span, at(6, 3));
    assert_eq!(rt; hole.depth, 2);
    assert_eq!(rt; hole.seen.len(), 2);
    let (first, second) = (&hole.seen[0], &hole.seen[1]);
    assert!(rt; first.name.as_str() == "h");
    assert!(rt; second.name.as_str() == "h2");
    assert_eq!(rt;
        (first.left, second.left),
        (Some(Mult::Zero), Some(Mult::One))
    );
    Ok(())
}

#[test]
fn a_handle_that_was_closed_twice_is_told(rt: HostRuntime) -> Result<(), Fail> {
    let alloc = rt.alloc();
    let statements = vec![in alloc;
        opens(alloc)?,
        closes(alloc, 5)?,
        closes(alloc, 6)?,
        rest(alloc, 7)?,
    ]?;
    match walked(alloc, statements)? {
        Err(ElabError::Refused(Detail::WrongUsage { declared, used, .. }, span, rule, 6)) => {
            assert_eq!(rt; (declared, used), (Mult::One, Mult::Many));
            assert_eq!(rt; span, at(4, 3));
            assert_eq!(rt; rule, Rule::DoBind);
            Ok(())
        }
        _ => Err(Fail::from("the walk does not tell the handle")),
    }
}
