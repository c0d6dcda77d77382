//! Code whose free variables stand for something.

ghost use Rattle.std.specs.Prelude.{◌≡◌, ◌+◌, IfOk};
ghost use Rattle.qtt_term.specs.Term as core;
ghost use Rattle.qtt_term.specs.Substitution.{ren, sub, cons, lifts, shift};
ghost use Rattle.qtt_term.specs.View.{term};
ghost use Rattle.qtt_envconv.specs.Closures.{closure as closure_of, referent as referent_of, values as values_of, IsFound};

use bumpalo::Bump;
use qtt_base::MemoryError;
use qtt_term::Term;

/// What the free variables of code stand for, the newest first.
#[cycle(values)]
#[derive(Clone, Copy)]
pub enum Values<'a> {
    /// Each stands for itself.
    Own,
    /// The newest stands for this, and the others for what the older values say.
    Bound(Referent<'a>, &'a Values<'a>),
    /// The newest stands for itself, and the others for what the older values say, under one
    /// binder more.
    Under(&'a Values<'a>),
    /// Each stands for what these values say, under so many binders more.
    Moved(u32, &'a Values<'a>),
}

/// What a variable stands for.
#[cycle(values)]
#[derive(Clone, Copy)]
pub enum Referent<'a> {
    Variable(u32),
    Closure(Closure<'a>),
}

/// Code, and what its free variables stand for.
#[cycle(values)]
#[derive(Clone, Copy)]
pub struct Closure<'a> {
    pub code: &'a Term,
    pub values: &'a Values<'a>,
}

/// Puts a value into the arena.
pub fn placed<'a, T: Drop>(arena: &'a Bump, value: T) -> Result<&'a T, MemoryError>
    ensures { IfOk result (λ r. r.now ≡ value) }
{
    Ok(arena.try_alloc(value)?)
}

/// So many binders deeper.
fn deeper(depth: u32, by: u32) -> Result<u32, MemoryError>
    ensures { IfOk result (λ d. d ≡ depth + by) }
{
    match depth.checked_add(by) {
        Some(depth) => Ok(depth),
        None => Err(MemoryError),
    }
}

/// The values under so many binders more.
fn moved<'a>(
    arena: &'a Bump,
    values: &'a Values<'a>,
    by: u32,
) -> Result<&'a Values<'a>, MemoryError>
    ensures { IfOk result (λ r. (t : core.Term) → sub (values_of r.now) t ≡ ren (shift by)
        (sub (values_of values.now) t)) }
{
    if by == 0 {
        Ok(values)
    } else {
        placed(arena, Values::Moved(by, values))
    }
}

impl<'a> Values<'a> {
    /// The values under so many binders that bind the newest variables.
    pub fn under(&'a self, arena: &'a Bump, binders: u32) -> Result<&'a Values<'a>, MemoryError>
        ensures { IfOk result (λ r. values_of r.now ≡ lifts binders (values_of self.now)) }
    {
        match binders.checked_sub(1) {
            None => Ok(self),
            Some(fewer) => placed(arena, Values::Under(self))?.under(arena, fewer),
        }
    }

    /// The values with one more, for the newest variable.
    pub fn with(
        &'a self,
        arena: &'a Bump,
        newest: Closure<'a>,
    ) -> Result<&'a Values<'a>, MemoryError>
        ensures { IfOk result (λ r. values_of r.now ≡ cons (closure_of newest.entry)
            (values_of self.now)) }
    {
        placed(arena, Values::Bound(newest.referent(arena)?, self))
    }

    /// What a variable stands for, down to what is no variable that stands for something else,
    /// under so many binders more.
    fn found(&'a self, arena: &'a Bump, mut index: u32) -> Result<Referent<'a>, MemoryError>
        ensures means { IfOk result (λ r. referent_of r ≡ values_of self.now index) }
        ensures found { IfOk result (λ r. IsFound r) }
    {
        let mut values = self;
        let mut depth = 0;
        loop {
            match values {
                Values::Own => return Ok(Referent::Variable(deeper(index, depth)?)),
                Values::Moved(by, older) => {
                    depth = deeper(depth, *by)?;
                    values = older;
                }
                Values::Under(older) => match index.checked_sub(1) {
                    None => return Ok(Referent::Variable(depth)),
                    Some(older_index) => {
                        index = older_index;
                        depth = deeper(depth, 1)?;
                        values = older;
                    }
                },
                Values::Bound(newest, older) => match index.checked_sub(1) {
                    Some(older_index) => {
                        index = older_index;
                        values = older;
                    }
                    None => match newest {
                        Referent::Variable(i) => {
                            return Ok(Referent::Variable(deeper(*i, depth)?));
                        }
                        Referent::Closure(closure) => match closure.code {
                            Term::Var(i) => {
                                index = *i;
                                values = closure.values;
                            }
                            code => {
                                let values = moved(arena, closure.values, depth)?;
                                return Ok(Referent::Closure(Closure { code, values }));
                            }
                        },
                    },
                },
            }
        }
    }
}

impl<'a> Closure<'a> {
    /// Code whose free variables stand for themselves.
    pub fn of(arena: &'a Bump, code: &'a Term) -> Result<Closure<'a>, MemoryError>
        ensures { IfOk result (λ c. closure_of c ≡ term code.now) }
    {
        let values = placed(arena, Values::Own)?;
        Ok(Closure { code, values })
    }

    /// Other code whose free variables stand for the same.
    pub fn at(self, code: &'a Term) -> Closure<'a>
        ensures { closure_of result ≡ sub (values_of self.entry.values.now) (term code.now) }
    {
        Closure {
            code,
            values: self.values,
        }
    }

    /// What the code stands for, down to what is no variable that stands for something else.
    pub fn referent(self, arena: &'a Bump) -> Result<Referent<'a>, MemoryError>
        ensures means { IfOk result (λ r. referent_of r ≡ closure_of self.entry) }
        ensures found { IfOk result (λ r. IsFound r) }
    {
        match self.code {
            Term::Var(index) => self.values.found(arena, *index),
            _ => Ok(Referent::Closure(self)),
        }
    }
}
