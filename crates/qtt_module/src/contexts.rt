//! Contexts of named variables, as they grow binder by binder.

ghost use Rattle.std.specs.Prelude.{◌≡◌, ◌++◌, ◌∷◌, [], IfOk, length, map, take};
ghost use Rattle.qtt_syntax.specs.View.{tree_of};
ghost use Rattle.qtt_term.specs.Scope.{no_scope, scope_of, shifted, with_name as scope_with_name, with_index as scope_with_index};
ghost use Rattle.qtt_term.specs.Telescopes.{tele};
ghost use Rattle.qtt_term.specs.View.{term};
ghost use Rattle.qtt_bidi.specs.Seen.{stands};
ghost use Rattle.qtt_module.specs.Families.{pieces, behind_indices as scope_behind_indices};

use qtt_syntax::Expr;
use qtt_term::telescopes::copied_binders;
use qtt_term::{Ctx, Term, TermError};
use qtt_usage::mult::Mult;
use std::alloc::Global;

/// No variables.
pub fn no_context(alloc: Global) -> Ctx
    ensures scope { scope_of result ≡ no_scope }
    ensures none { length result.vars.items ≡ 0 }
{
    Ctx {
        vars: Vec::new(alloc),
        names: Vec::new(alloc),
    }
}

/// A context that stands for the same.
pub fn copied_context(alloc: Global, context: &Ctx) -> Result<Ctx, TermError>
    ensures scope { IfOk result (λ c. scope_of c ≡ scope_of context.now) }
    ensures vars { IfOk result (λ c. tele c.vars.items ≡ tele context.now.vars.items) }
    ensures len { IfOk result (λ c. length c.vars.items ≡ length context.now.vars.items) }
{
    Ok(Ctx {
        vars: copied_binders(alloc, &context.vars)?,
        names: copied_names(alloc, &context.names)?,
    })
}

fn copied_names(alloc: Global, names: &[(Term, Term)]) -> Result<Vec<(Term, Term)>, TermError>
    ensures { IfOk result (λ v. map stands v.items ≡ map stands names.now) }
{
    let mut copies = Vec::with_capacity(alloc, names.len())?;
    for (term, ty) in names {
        copies.push((term.copy(alloc)?, ty.copy(alloc)?))?;
    }
    Ok(copies)
}

/// What names stand for, under one more variable.
fn shifted_names(alloc: Global, names: &[(Term, Term)]) -> Result<Vec<(Term, Term)>, TermError>
    ensures { IfOk result (λ v. map stands v.items ≡ shifted (map stands names.now)) }
{
    let mut all = Vec::with_capacity(alloc, names.len())?;
    for (term, ty) in names {
        all.push((term.shift(alloc, 0, 1)?, ty.shift(alloc, 0, 1)?))?;
    }
    Ok(all)
}

/// The context under one more variable, with its name.
pub fn with_name(alloc: Global, context: Ctx, mult: Mult, ty: Term) -> Result<Ctx, TermError>
    ensures scope { IfOk result (λ c. scope_of c ≡
        scope_with_name mult (term ty) (scope_of context)) }
    ensures vars { IfOk result (λ c. tele c.vars.items ≡
        tele context.vars.items ++ (mult, term ty) ∷ []) }
{
    let Ctx { vars, names } = context;
    let mut names = shifted_names(alloc, &names)?;
    names.push((Term::Var(0), ty.shift(alloc, 0, 1)?))?;
    let mut vars = vars;
    vars.push((mult, ty))?;
    Ok(Ctx { vars, names })
}

/// The context with the name of an index, which is counted, and stands for nothing.
pub fn with_index(context: Ctx) -> Result<Ctx, TermError>
    ensures scope { IfOk result (λ c. scope_of c ≡ scope_with_index (scope_of context)) }
    ensures vars { IfOk result (λ c. c.vars ≡ context.vars) }
    ensures names { IfOk result (λ c. take (length context.names.items) c.names.items ≡
        context.names.items) }
{
    let Ctx { vars, names } = context;
    let mut names = names;
    names.push((Term::Sort(0), Term::Sort(1)))?;
    Ok(Ctx { vars, names })
}

/// The context behind all indices of a chain of binders.
pub fn behind_indices(context: Ctx, chain: &Expr) -> Result<Ctx, TermError>
    ensures scope { IfOk result (λ c. scope_of c ≡
        scope_behind_indices (pieces (tree_of chain.now)) (scope_of context)) }
    ensures vars { IfOk result (λ c. c.vars ≡ context.vars) }
    ensures names { IfOk result (λ c. take (length context.names.items) c.names.items ≡
        context.names.items) }
{
    match chain {
        Expr::Pi { codomain, .. } => behind_indices(with_index(context)?, codomain),
        _ => Ok(context),
    }
}

/// The context with its first names alone.
pub fn with_first_names(context: Ctx, count: usize) -> Ctx
    ensures vars { result.vars ≡ context.vars }
    ensures names { result.names.items ≡ take count context.names.items }
{
    let Ctx { vars, names } = context;
    let mut names = names;
    names.truncate(count);
    Ctx { vars, names }
}
