//! The limit on indices and fields, over whole texts.

ghost use Rattle.std.specs.Prelude.{◌<◌, true, length, None};
ghost use Rattle.qtt_phrase.specs.Phrase.{opens};
ghost use Rattle.qtt_phrase.specs.Reading.{counted_at, making_at, then_at, token_at};
ghost use Rattle.qtt_grammar.specs.ChainReaders.{ends_con, ignored, con_chain_at, cons_chain_at, family_chain_at, item_chain_at, entry_chain_at, module_chain_at, text_chain_at};
ghost use Rattle.qtt_grammar.specs.ChainView.{cons_from, chained_within};
ghost use Rattle.qtt_grammar.specs.Classes.{is_next, is_where, is_close, is_import, is_name};
ghost use Rattle.qtt_grammar.specs.Grammar.{of, place, start};
ghost use Rattle.qtt_grammar.specs.Readers.{local_at, defining_at};
ghost use Rattle.qtt_grammar.specs.View.{Answers, within};

use crate::chain::{expr_chain, free, typing_chain};
use crate::class::{Class, Pass};
use crate::item::{equation, erased, params, partial, signing};
use crate::stop::{Excess, Reason, Stop};
use crate::token::{Reading, Rest, any_name, begins, big_name, simple_name, symbol};
use qtt_base::Span;
use qtt_syntax::Local;
use std::alloc::Global;

// What may stand behind a constructor's type, where that leaves this open: whether it is the
// last one.
fn con_end<'a>(pending: Option<Excess>, ahead: Rest<'a>) -> Reading<'a, bool>
    ensures { Answers (λ b. b) result
        (token_at (λ _. pending) (of ends_con) (of is_close) ahead.now) }
{
    match ahead {
        [first, rest @ ..] if Class::Next.same(first.class) || Class::Close.same(first.class) => {
            match pending {
                Some(excess) => Err(Stop::Over(excess, rest)),
                None => Ok((Class::Close.same(first.class), rest)),
            }
        }
        _ => Err(Stop::Bad(Reason::Unexpected, ahead)),
    }
}

// `where` behind a family's type, which leaves this open.
fn type_end<'a>(pending: Option<Excess>, ahead: Rest<'a>) -> Reading<'a, Span>
    ensures { Answers (λ s. s) result (token_at (λ _. pending) (of is_where) place ahead.now) }
{
    match ahead {
        [first, rest @ ..] if Class::Where.same(first.class) => match pending {
            Some(excess) => Err(Stop::Over(excess, rest)),
            None => Ok((first.place, rest)),
        },
        _ => Err(Stop::Bad(Reason::Unexpected, ahead)),
    }
}

// A constructor and the token behind it: whether it is the last one.
#[tactic(auto, unfolding(crate::specs::ChainReaders::con_chain_at))]
fn con<'a>(alloc: Global, left: u32, ahead: Rest<'a>) -> Reading<'a, bool>
    ensures { Answers (λ b. b) result (chained_within con_chain_at left ahead.now) }
{
    let (_, rest) = big_name(ahead)?;
    let (_, rest) = symbol(Class::Colon, rest)?;
    let (pending, rest) = typing_chain(alloc, left, 0, rest)?;
    con_end(pending, rest)
}

// Constructors up to the end of their block, of which at least one is there.
fn more_cons<'a>(alloc: Global, left: u32, ahead: Rest<'a>) -> Reading<'a, ()>
    ensures { Answers (λ _. tt) result (cons_from left (length ahead.now) ahead.now) }
{
    let mut rest = ahead;
    'cons: for _ in 0..ahead.len() {
        if !begins(Class::Big, rest) {
            return Err(Stop::Bad(Reason::Unexpected, rest));
        }
        let (closed, after) = con(alloc, left, rest)?;
        if closed {
            return Ok(((), after));
        }
        rest = after;
    }
    Err(Stop::Bad(Reason::Unexpected, rest))
}

// The constructors of a family and the end of their block.
#[tactic(auto, unfolding(crate::specs::ChainReaders::cons_chain_at))]
fn cons<'a>(alloc: Global, left: u32, ahead: Rest<'a>) -> Reading<'a, ()>
    ensures { Answers (λ _. tt) result (chained_within cons_chain_at left ahead.now) }
{
    if !begins(Class::Close, ahead) {
        return more_cons(alloc, left, ahead);
    }
    let (_, rest) = symbol(Class::Close, ahead)?;
    Ok(((), rest))
}

// A family.
#[tactic(auto, unfolding(crate::specs::ChainReaders::family_chain_at))]
fn family<'a>(alloc: Global, left: u32, ahead: Rest<'a>) -> Reading<'a, ()>
    requires { 0 < left }
    ensures { Answers (λ _. tt) result (chained_within family_chain_at left ahead.now) }
{
    let (_, rest) = symbol(Class::Data, ahead)?;
    let (_, rest) = big_name(rest)?;
    let (_, rest) = params(free(alloc, left), rest)?;
    let (_, rest) = symbol(Class::Colon, rest)?;
    let (pending, rest) = expr_chain(alloc, left, 0, rest)?;
    let (_, rest) = type_end(pending, rest)?;
    let (_, rest) = symbol(Class::Open, rest)?;
    cons(alloc, left, rest)
}

// A signature or a clause.
#[tactic(auto, unfolding(crate::specs::Readers::defining_at, crate::specs::Readers::clause_at))]
fn defining<'a>(alloc: Global, left: u32, ahead: Rest<'a>) -> Reading<'a, ()>
    ensures { Answers (λ _. tt) result
        (making_at ignored (within defining_at Pass.Free left start) ahead.now) }
{
    let (name, rest) = simple_name(ahead)?;
    let (_, rest) = if begins(Class::Colon, rest) {
        signing(free(alloc, left), name, rest)?
    } else {
        equation(free(alloc, left), name, rest)?
    };
    Ok(((), rest))
}

// An item.
#[tactic(auto, unfolding(crate::specs::ChainReaders::item_chain_at))]
fn item<'a>(alloc: Global, left: u32, ahead: Rest<'a>) -> Reading<'a, ()>
    requires { 0 < left }
    ensures { Answers (λ _. tt) result (chained_within item_chain_at left ahead.now) }
{
    if begins(Class::Data, ahead) {
        return family(alloc, left, ahead);
    }
    if begins(Class::Partial, ahead) {
        let (_, rest) = partial(free(alloc, left), ahead)?;
        return Ok(((), rest));
    }
    if begins(Class::Zero, ahead) {
        let (_, rest) = erased(free(alloc, left), ahead)?;
        return Ok(((), rest));
    }
    defining(alloc, left, ahead)
}

// An import, where imports may stand: its place and its name.
fn import<'a>(imports: bool, ahead: Rest<'a>) -> Reading<'a, (Span, Local)>
    ensures { Answers (λ i. (i.0, i.1)) result
        (then_at (token_at (λ _. None) (opens imports (of is_import)) place)
        (local_at is_name) ahead.now) }
{
    match ahead {
        [first, rest @ ..] if imports && Class::Import.same(first.class) => {
            let (name, rest) = any_name(rest)?;
            Ok(((first.place, name), rest))
        }
        _ => Err(Stop::Bad(Reason::Unexpected, ahead)),
    }
}

// An import or an item, where imports may stand or not: whether they may still.
#[tactic(auto, unfolding(crate::specs::ChainReaders::entry_chain_at))]
fn entry<'a>(alloc: Global, left: u32, imports: bool, ahead: Rest<'a>) -> Reading<'a, bool>
    requires { 0 < left }
    ensures { Answers (λ b. b) result (chained_within entry_chain_at left imports ahead.now) }
{
    let (_, rest) = symbol(Class::Next, ahead)?;
    if !begins(Class::Import, rest) {
        let (_, rest) = item(alloc, left, rest)?;
        return Ok((false, rest));
    }
    let (_, rest) = import(imports, rest)?;
    Ok((imports, rest))
}

// All imports and items.
fn entries<'a>(alloc: Global, left: u32, ahead: Rest<'a>) -> Reading<'a, ()>
    requires { 0 < left }
    ensures { Answers (λ _. tt) result
        (making_at ignored (counted_at (λ _ b. b) (of is_next)
        (chained_within entry_chain_at left) true) ahead.now) }
{
    let mut imports = true;
    let mut rest = ahead;
    'entries: for _ in 0..ahead.len() {
        if !begins(Class::Next, rest) {
            return Ok(((), rest));
        }
        let (still, after) = entry(alloc, left, imports, rest)?;
        imports = still;
        rest = after;
    }
    Ok(((), rest))
}

#[tactic(auto, unfolding(crate::specs::ChainReaders::module_chain_at))]
fn module<'a>(alloc: Global, left: u32, ahead: Rest<'a>) -> Reading<'a, ()>
    requires { 0 < left }
    ensures { Answers (λ _. tt) result (chained_within module_chain_at left ahead.now) }
{
    let (_, rest) = symbol(Class::Open, ahead)?;
    let (_, rest) = symbol(Class::Module, rest)?;
    let (_, rest) = any_name(rest)?;
    let (_, rest) = entries(alloc, left, rest)?;
    let (_, rest) = symbol(Class::Close, rest)?;
    Ok(((), rest))
}

/// A module's text, stopped by the first index or field that is one too many.
#[tactic(auto, using(crate::proofs::Below::below_is), unfolding(crate::specs::ChainReaders::text_chain_at))]
pub fn text_chain<'a>(alloc: Global, ahead: Rest<'a>) -> Reading<'a, ()>
    ensures { Answers (λ _. tt) result (text_chain_at ahead.now) }
{
    module(alloc, 200, ahead)
}
