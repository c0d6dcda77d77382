//! Readings of indices: heads, and below them the heads of the fields of constructors of plain
//! families, all under one count.

ghost use Rattle.std.specs.Prelude.{◌≡◌, ◌+◌, None, IfOk, true};
ghost use Rattle.qtt_term.specs.Globals.{env as env_of};
ghost use Rattle.qtt_term.specs.Question.{head as head_in, head_step, weight};
ghost use Rattle.qtt_term.specs.Reading.{read_step, is_plain as plain};
ghost use Rattle.qtt_term.specs.Signature.{Env, family_at};
ghost use Rattle.qtt_term.specs.View.{term};
ghost use Rattle.qtt_term.specs.Answers.{head as head_of};
ghost use Rattle.qtt_unify.specs.Unread.{con_of, plug_all, whole, ArePending, behinds, unread, TakenApart, StepsTo, RoundTo, TakesTo, ReadTo};

use crate::plain::is_plain;
use qtt_base::MemoryError;
use qtt_term::{ConId, Converter, Globals, Head, Term};
use std::alloc::Global;
use std::mem;

/// A constructor of a plain family without the field that is being read: the fields before it are
/// read, and those behind it are not, the last of them first.
#[derive(Drop)]
pub struct Pending {
    con: ConId,
    params: Vec<Term>,
    before: Vec<Term>,
    behind: Vec<Term>,
}

/// A constructor and what it is applied to.
#[derive(Drop)]
pub struct Applied {
    con: ConId,
    params: Vec<Term>,
    fields: Vec<Term>,
}

/// An index on the way to its reading: what is to be read next, and the constructors around it,
/// the innermost last.
#[derive(Drop)]
pub struct Reading {
    focus: Term,
    around: Vec<Pending>,
}

/// Past a head: the whole is read, or something else is to be read next.
#[derive(Drop)]
pub enum Step {
    Whole(Term),
    Next(Reading),
}

/// How far a reading came: to its end, to the end of its count, or to a contraction, after which
/// so many may be made.
#[derive(Drop)]
pub enum Round {
    Read(Term),
    Spent,
    Contracted(u64, Reading),
}

/// The reading of an index within `n` contractions, none where more would be made. The machine's
/// stack does not grow with the reading.
pub fn read<C: Converter>(
    alloc: Global,
    converter: &C,
    n: u64,
    env: &Globals,
    t: &Term,
) -> Result<Option<Term>, MemoryError>
    ensures { IfOk result (λ o. ReadTo (env_of env.now) n (term t.now) o) }
{
    let mut left = n;
    let mut reading = Reading {
        focus: t.copy(alloc)?,
        around: Vec::new(alloc),
    };
    loop {
        match one_round(alloc, converter, left, env, reading)? {
            Round::Read(read) => return Ok(Some(read)),
            Round::Spent => return Ok(None),
            Round::Contracted(fewer, next) => {
                left = fewer;
                reading = next;
            }
        }
    }
}

/// Reads until a contraction is made or the whole is read.
fn one_round<C: Converter>(
    alloc: Global,
    converter: &C,
    n: u64,
    env: &Globals,
    mut reading: Reading,
) -> Result<Round, MemoryError>
    requires { ArePending (env_of env.now) reading.around.items }
    ensures { IfOk result (λ r. RoundTo (env_of env.now) n (whole reading) r) }
{
    loop {
        match past_one(alloc, converter, n, env, reading)? {
            Round::Read(read) => return Ok(Round::Read(read)),
            Round::Spent => return Ok(Round::Spent),
            Round::Contracted(fewer, next) => {
                if fewer < n {
                    return Ok(Round::Contracted(fewer, next));
                }
                reading = next;
            }
        }
    }
}

/// Goes past one head.
fn past_one<C: Converter>(
    alloc: Global,
    converter: &C,
    n: u64,
    env: &Globals,
    reading: Reading,
) -> Result<Round, MemoryError>
    requires { ArePending (env_of env.now) reading.around.items }
    ensures { IfOk result
        (λ r. TakesTo (env_of env.now) n (whole reading) (unread reading) r) }
{
    let Reading { focus, around } = reading;
    match head_within(alloc, converter, n, env, focus)? {
        Head::Spent => Ok(Round::Spent),
        Head::Done(head, made) => {
            if made > 0 {
                let next = Reading {
                    focus: head,
                    around,
                };
                return Ok(Round::Contracted(n - made, next));
            }
            match past_head(alloc, env, head, around)? {
                Step::Whole(read) => Ok(Round::Read(read)),
                Step::Next(next) => Ok(Round::Contracted(n, next)),
            }
        }
    }
}

/// The head of a term within `n` contractions.
fn head_within<C: Converter>(
    alloc: Global,
    converter: &C,
    n: u64,
    env: &Globals,
    t: Term,
) -> Result<Head, MemoryError>
    ensures { IfOk result (λ h. head_of h ≡ head_in (env_of env.now) n (term t)) }
{
    converter.head(alloc, n, env, &t)
}

/// Goes on past a head: into the fields of a constructor of a plain family, and else behind it.
fn past_head(
    alloc: Global,
    env: &Globals,
    mut head: Term,
    around: Vec<Pending>,
) -> Result<Step, MemoryError>
    requires head { head_step (env_of env.now) (term head) ≡ None }
    requires around { ArePending (env_of env.now) around.items }
    ensures { IfOk result
        (λ s. StepsTo (env_of env.now) (plug_all around.items (term head))
        (weight (term head) + behinds around.items) s) }
{
    match taken_apart(alloc, env, &mut head)? {
        Some(applied) => into_fields(alloc, applied.con, applied.params, applied.fields, around),
        None => gone_on(head, around),
    }
}

/// Takes a constructor of a plain family apart. What else is there stays.
fn taken_apart(
    alloc: Global,
    env: &Globals,
    head: &mut Term,
) -> Result<Option<Applied>, MemoryError>
    ensures { IfOk result (λ a. TakenApart (env_of env.now) head.old head.new a) }
{
    match head {
        Term::Con(con, params, fields) => {
            if is_plain(env, con.family)? {
                Ok(Some(Applied {
                    con: *con,
                    params: mem::replace(params, Vec::new(alloc)),
                    fields: mem::replace(fields, Vec::new(alloc)),
                }))
            } else {
                Ok(None)
            }
        }
        _ => Ok(None),
    }
}

/// The first field of a constructor of a plain family is to be read next.
fn into_fields(
    alloc: Global,
    con: ConId,
    params: Vec<Term>,
    mut fields: Vec<Term>,
    mut around: Vec<Pending>,
) -> Result<Step, MemoryError>
    ensures { (E : Env) → plain (family_at E con.family) ≡ true → ArePending E around.items →
        IfOk result
        (λ s. StepsTo E (plug_all around.items (con_of con params.items fields.items))
        (weight (con_of con params.items fields.items) + behinds around.items) s) }
{
    fields.reverse();
    match fields.pop() {
        Some(first) => {
            around.push(Pending {
                con,
                params,
                before: Vec::new(alloc),
                behind: fields,
            })?;
            Ok(Step::Next(Reading {
                focus: first,
                around,
            }))
        }
        None => gone_on(Term::Con(con, params, fields), around),
    }
}

/// Goes on behind a term that is read.
fn gone_on(read: Term, mut around: Vec<Pending>) -> Result<Step, MemoryError>
    ensures { (E : Env) → read_step E (term read) ≡ None → ArePending E around.items → IfOk result
        (λ s. StepsTo E (plug_all around.items (term read))
        (weight (term read) + behinds around.items) s) }
{
    let mut read = read;
    while let Some(pending) = around.pop() {
        let Pending {
            con,
            params,
            mut before,
            mut behind,
        } = pending;
        before.push(read)?;
        match behind.pop() {
            Some(next) => {
                around.push(Pending {
                    con,
                    params,
                    before,
                    behind,
                })?;
                return Ok(Step::Next(Reading {
                    focus: next,
                    around,
                }));
            }
            None => read = Term::Con(con, params, before),
        }
    }
    Ok(Step::Whole(read))
}
