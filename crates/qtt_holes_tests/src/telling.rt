//! The lines of a hole, with ample memory; and that holes may be moved between threads.

use qtt_base::{Name, Span};
use qtt_holes::{Hole, Seen, show};
use qtt_term::{Globals, Term};
use qtt_usage::mult::Mult;
use std::alloc::Global;
use std::test::Fail;

fn handle(alloc: Global, name: &str, variable: u32, left: Mult) -> Result<Seen, Fail> {
    Ok(Seen {
        name: Name::new(alloc, name)?,
        ty: Term::HandleTy,
        stands: Term::Var(variable),
        left: Some(left),
    })
}

/// Behind `h <- open "a"` and `h2 <- write h "x"`.
#[test]
fn a_hole_behind_two_handles_is_told(rt: HostRuntime) -> Result<(), Fail> {
    let alloc = rt.alloc();
    let mut seen = Vec::new(alloc);
    seen.push(handle(alloc, "h", 1, Mult::Zero)?)?;
    seen.push(handle(alloc, "h2", 0, Mult::One)?)?;
    let hole = Hole {
        name: Name::new(alloc, "rest")?,
        span: Span {
            line: 6,
            col: 3,
            len: 5,
        },
        goal: Term::StringTy,
        depth: 2,
        seen,
    };
    let names = Globals::prim(alloc)?;
    let main = Name::new(alloc, "Main")?;
    let wanted = "hole rest Main:6:3 : String\n  0 h x0 : Handle\n  1 h2 x1 : Handle\n";
    assert!(rt; show(alloc, &names, &main, &hole)?.as_slice() == wanted.as_bytes());
    Ok(())
}

fn takes_moved<T: Send>(value: T) -> T {
    value
}

#[test]
fn holes_cross_threads(rt: HostRuntime) -> Result<(), Fail> {
    let alloc = rt.alloc();
    let seen = takes_moved(handle(alloc, "h", 0, Mult::One)?);
    assert!(rt; seen.left == Some(Mult::One));
    let hole = takes_moved(Hole {
        name: Name::new(alloc, "a")?,
        span: Span {
            line: 3,
            col: 12,
            len: 2,
        },
        goal: Term::IntTy,
        depth: 0,
        seen: Vec::new(alloc),
    });
    assert!(rt; hole.depth == 0);
    Ok(())
}
