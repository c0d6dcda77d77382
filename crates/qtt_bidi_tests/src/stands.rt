//! Names that stand for terms.

use qtt_base::{GlobalId, Name, Span};
use qtt_bidi::{Synth, synth};
use qtt_conv::BySubst;
use qtt_core_print::print_core;
use qtt_programs::terms::{item, prim_item};
use qtt_rules::{Detail, ElabError};
use qtt_syntax::{Expr, Named, Target};
use qtt_term::{ConId, Ctx, Globals, Question, Rule, Sigma, Term};
use qtt_usage::mult::Mult;
use std::alloc::Global;
use std::test::Fail;

const PLACE: Span = Span {
    line: 1,
    col: 1,
    len: 1,
};

/// `Got` of a term, and the type of that.
fn got(alloc: Global, t: Term) -> Result<(Term, Term), Fail> {
    let family = prim_item(5);
    let con = ConId { family, place: 1 };
    let fields = vec![in alloc; t]?;
    let line = Term::Fam(family, Vec::new(alloc));
    Ok((Term::Con(con, Vec::new(alloc), fields), line))
}

/// The name of `Got` of a term over a variable of the type String that is declared so, synthesised
/// with 5 contractions for each question.
fn standing(
    alloc: Global,
    globals: &Globals,
    declared: Mult,
    sigma: Sigma,
    t: Term,
) -> Result<Result<Synth, ElabError>, Fail> {
    let context = Ctx {
        vars: vec![in alloc; (declared, Term::StringTy)]?,
        names: vec![in alloc; got(alloc, t)?]?,
    };
    let e = Expr::Name(Named {
        path: Name::new(alloc, "x")?,
        target: Target::Local(0),
        span: PLACE,
    });
    Ok(synth(alloc, &BySubst, 5, globals, &context, sigma, &e))
}

fn is_printed(alloc: Global, globals: &Globals, t: &Term, text: &str) -> Result<bool, Fail> {
    Ok(print_core(alloc, globals, 1, t)?.as_slice() == text.as_bytes())
}

#[test]
fn it_has_the_recorded_type_and_the_uses_of_its_term(rt: HostRuntime) -> Result<(), Fail> {
    let alloc = rt.alloc();
    let globals = Globals::prim(alloc)?;
    let Ok(found) = standing(alloc, &globals, Mult::Many, Sigma::Run, Term::Var(0))? else {
        return Err(Fail::from("the name is refused"));
    };
    assert!(rt; is_printed(alloc, &globals, &found.core, "(Got x0)")?);
    assert!(rt; is_printed(alloc, &globals, &found.ty, "Line")?);
    if found.usage.is_empty() {
        return Err(Fail::from("the variable has no use"));
    }
    assert_eq!(rt; found.usage.get(0), Mult::Many);
    Ok(())
}

#[test]
fn an_erased_variable_in_its_term_is_refused_at_run_time(rt: HostRuntime) -> Result<(), Fail> {
    let alloc = rt.alloc();
    let globals = Globals::prim(alloc)?;
    assert!(rt; standing(alloc, &globals, Mult::Zero, Sigma::Erased, Term::Var(0))?.is_ok());
    let refused = standing(alloc, &globals, Mult::Zero, Sigma::Run, Term::Var(0))?;
    let Err(ElabError::Refused(detail, _, rule, premise)) = refused else {
        return Err(Fail::from("the name is not refused"));
    };
    let Detail::ErasedUse { depth, core } = detail else {
        return Err(Fail::from("the name is not refused as erased"));
    };
    assert_eq!(rt; depth, 1);
    assert!(rt; is_printed(alloc, &globals, &core, "(Got x0)")?);
    assert!(rt; rule == Rule::Stands);
    assert_eq!(rt; premise, 1);
    Ok(())
}

/// Adds a definition that is its own body.
fn add_circle(alloc: Global, globals: &mut Globals, id: GlobalId, ty: Term) -> Result<(), Fail> {
    if !globals.is_absent(id) {
        return Err(Fail::from("the id is taken"));
    }
    globals.add_signature(id, Name::new(alloc, "Main.c")?, Mult::Many, ty)?;
    let body = Term::Def(id);
    if !globals.is_open(id) || !body.is_closed() {
        return Err(Fail::from("the body cannot be set"));
    }
    globals.set_body(id, body)?;
    Ok(())
}

/// `w : Type`, `w = w`, `c : w`, `c = c`: whether `c` is a String takes more contractions
/// than there are.
#[test]
fn a_question_about_its_term_is_spent_at_the_name(rt: HostRuntime) -> Result<(), Fail> {
    let alloc = rt.alloc();
    let mut globals = Globals::prim(alloc)?;
    add_circle(alloc, &mut globals, item(0), Term::Sort(0))?;
    add_circle(alloc, &mut globals, item(1), Term::Def(item(0)))?;
    let refused = standing(alloc, &globals, Mult::Many, Sigma::Run, Term::Def(item(1)))?;
    let Err(ElabError::Refused(detail, _, rule, premise)) = refused else {
        return Err(Fail::from("the name is not refused"));
    };
    let Detail::BudgetSpent { budget, question } = detail else {
        return Err(Fail::from("no question is spent"));
    };
    assert_eq!(rt; budget, 5);
    let Question::Compare(depth, found, expected) = question else {
        return Err(Fail::from("the question is no comparison"));
    };
    assert_eq!(rt; depth, 1);
    assert!(rt; found.same(&Term::Def(item(0))));
    assert!(rt; expected.same(&Term::StringTy));
    assert!(rt; rule == Rule::Stands);
    assert_eq!(rt; premise, 1);
    Ok(())
}
