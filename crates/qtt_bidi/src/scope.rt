//! Contexts with local names, as elaboration goes under binders.

ghost use Rattle.std.specs.Prelude.{◌≡◌, ◌+◌, ◌∷◌, IfOk, map, reverse, slice_get, option_map};
ghost use Rattle.qtt_term.specs.View.{term};
ghost use Rattle.qtt_term.specs.Judgement.{mult_at};
ghost use Rattle.qtt_term.specs.Scope.{depth};
ghost use Rattle.qtt_term.specs.Telescopes.{tele};
ghost use Rattle.qtt_bidi.specs.Elaboration.{bound};
ghost use Rattle.qtt_bidi.specs.Seen.{locals, stands, risen};

use qtt_base::MemoryError;
use qtt_syntax::Local;
use qtt_term::telescopes::copied_binders;
use qtt_term::{Ctx, Term, TermError};
use qtt_usage::mult::Mult;
use std::alloc::Global;

/// A context, and the binders of an expression inside it.
#[derive(Drop)]
pub enum Scope<'a> {
    Outer(&'a Ctx),
    /// A variable and its name.
    Named(&'a Scope<'a>, Mult, &'a Term),
    /// A variable that no name stands for.
    Unnamed(&'a Scope<'a>, Mult, &'a Term),
}

impl<'a> Scope<'a> {
    /// The scope under one more binder.
    #[tactic(auto, using(crate::proofs::Scopes::scopes))]
    pub fn with(&'a self, name: Option<&Local>, mult: Mult, ty: &'a Term) -> Scope<'a>
        ensures { locals result ≡ bound (option_map (λ x. x.now) name.entry) mult (term ty.now)
            (locals self.now) }
    {
        match name {
            Some(_) => Scope::Named(self, mult, ty),
            None => Scope::Unnamed(self, mult, ty),
        }
    }

    /// The number of variables.
    #[tactic(auto, using(crate::proofs::Scopes::scopes))]
    pub fn depth(&self) -> Result<u32, MemoryError>
        ensures { IfOk result (λ n. n ≡ depth (locals self.now)) }
    {
        match self {
            Scope::Outer(context) => number(context.vars.len()),
            Scope::Named(outer, _, _) => deeper(outer.depth()?),
            Scope::Unnamed(outer, _, _) => deeper(outer.depth()?),
        }
    }

    /// The multiplicity of a variable.
    #[tactic(auto, using(crate::proofs::Scopes::scopes))]
    pub fn mult(&self, index: u32) -> Mult
        ensures { result ≡ mult_at (locals self.now).vars index }
    {
        match self {
            Scope::Outer(context) => outer_mult(&context.vars, index),
            Scope::Named(outer, mult, _) => {
                if index == 0 {
                    *mult
                } else {
                    outer.mult(index - 1)
                }
            }
            Scope::Unnamed(outer, mult, _) => {
                if index == 0 {
                    *mult
                } else {
                    outer.mult(index - 1)
                }
            }
        }
    }

    /// What a local name stands for, and its type, under so many further variables.
    #[tactic(auto, using(crate::proofs::Scopes::scopes))]
    pub fn name(
        &self,
        alloc: Global,
        index: u32,
        above: u32,
    ) -> Result<Option<(Term, Term)>, TermError>
        ensures { IfOk result (λ o. option_map stands o ≡ option_map (risen above)
            (slice_get (locals self.now).names index)) }
    {
        match self {
            Scope::Outer(context) => outer_name(alloc, &context.names, index, above),
            Scope::Named(outer, _, ty) => {
                let above_it = higher(above)?;
                if index == 0 {
                    Ok(Some((Term::Var(above), ty.shift(alloc, 0, above_it)?)))
                } else {
                    outer.name(alloc, index - 1, above_it)
                }
            }
            Scope::Unnamed(outer, _, _) => outer.name(alloc, index, higher(above)?),
        }
    }

    /// The variables, the outermost first.
    #[tactic(auto, using(crate::proofs::Scopes::scopes))]
    pub fn variables(&self, alloc: Global) -> Result<Vec<(Mult, Term)>, TermError>
        ensures { IfOk result (λ v. reverse (tele v.items) ≡ (locals self.now).vars) }
    {
        match self {
            Scope::Outer(context) => copied_binders(alloc, &context.vars),
            Scope::Named(outer, mult, ty) => with_variable(
                alloc,
                outer.variables(alloc)?,
                *mult,
                *ty,
            ),
            Scope::Unnamed(outer, mult, ty) => {
                with_variable(alloc, outer.variables(alloc)?, *mult, *ty)
            }
        }
    }
}

fn number(count: usize) -> Result<u32, MemoryError>
    ensures { IfOk result (λ n. n ≡ count) }
{
    match u32::try_from(count) {
        Ok(number) => Ok(number),
        Err(_) => Err(MemoryError),
    }
}

fn deeper(depth: u32) -> Result<u32, MemoryError>
    ensures { IfOk result (λ n. n ≡ depth + 1) }
{
    match depth.checked_add(1) {
        Some(deeper) => Ok(deeper),
        None => Err(MemoryError),
    }
}

fn higher(above: u32) -> Result<u32, TermError>
    ensures { IfOk result (λ n. n ≡ above + 1) }
{
    match above.checked_add(1) {
        Some(higher) => Ok(higher),
        None => Err(TermError::Memory),
    }
}

/// The multiplicity of a variable of a context, and 0 of what is none.
#[tactic(auto, using(crate::proofs::Scopes::scopes))]
fn outer_mult(vars: &[(Mult, Term)], index: u32) -> Mult
    ensures { result ≡ mult_at (reverse (tele vars.now)) index }
{
    let place = index as usize;
    if place < vars.len() {
        vars[vars.len() - 1 - place].0
    } else {
        Mult::Zero
    }
}

/// What a name of a context stands for, and its type, under so many further variables.
#[tactic(auto, using(crate::proofs::Scopes::scopes))]
fn outer_name(
    alloc: Global,
    names: &[(Term, Term)],
    index: u32,
    above: u32,
) -> Result<Option<(Term, Term)>, TermError>
    ensures { IfOk result (λ o. option_map stands o ≡ option_map (risen above)
        (slice_get (reverse (map stands names.now)) index)) }
{
    let place = index as usize;
    if place >= names.len() {
        return Ok(None);
    }
    let (term, ty) = &names[names.len() - 1 - place];
    Ok(Some((term.shift(alloc, 0, above)?, ty.shift(alloc, 0, above)?)))
}

/// One variable more, the newest.
#[tactic(auto, using(crate::proofs::Scopes::scopes))]
fn with_variable(
    alloc: Global,
    vars: Vec<(Mult, Term)>,
    mult: Mult,
    ty: &Term,
) -> Result<Vec<(Mult, Term)>, TermError>
    ensures { IfOk result (λ v. reverse (tele v.items) ≡ (mult, term ty.now) ∷
        reverse (tele vars.items)) }
{
    let mut vars = vars;
    vars.push((mult, ty.copy(alloc)?))?;
    Ok(vars)
}
