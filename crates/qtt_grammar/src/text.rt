//! Whole texts.

ghost use Rattle.std.specs.Prelude.{◌<◌};
ghost use Rattle.qtt_phrase.specs.Reading.{cap_at, making_at};
ghost use Rattle.qtt_phrase.specs.Reading.Kind.{unexpected};
ghost use Rattle.qtt_syntax.specs.Tree as tree;
ghost use Rattle.qtt_syntax.specs.View.{item_of, module_of};
ghost use Rattle.qtt_grammar.specs.Classes.{starts_item};
ghost use Rattle.qtt_grammar.specs.Grammar.{of, start, imported};
ghost use Rattle.qtt_grammar.specs.Limits.{one_above};
ghost use Rattle.qtt_grammar.specs.Readers.{starts_equation, up_to_at, clause_at, defining_at, item_at, import_at, entry_at, entries_at, module_at, text_at};
ghost use Rattle.qtt_grammar.specs.View.{Answers, Fails, within, place_of, entry_of, body_of, parts_of};

use crate::body::{Body, Entry};
use crate::class::{Class, Pass};
use crate::count::one_above;
use crate::item::{equation, erased, family, partial, signing};
use crate::level::Level;
use crate::stop::{Reason, Stop};
use crate::token::{Reading, Rest, any_name, begins, simple_name, symbol};
use qtt_base::{Quantity, Span};
use qtt_syntax::{Import, Item, Local, ModuleText};
use std::alloc::Global;

// Why no other clause of a name is read, where as many as may be stand before.
fn no_clause<'a>(name: Span, ahead: Rest<'a>) -> Stop<'a>
    ensures { Fails {A = tree.Item} result
        (cap_at (of starts_equation) (λ _. unexpected) (λ _. one_above Quantity.Clauses name)
        ahead.now) }
{
    match ahead {
        [first, rest @ ..] if first.class.starts_equation() => {
            Stop::Over(one_above(Quantity::Clauses, name), rest)
        }
        _ => Stop::Bad(Reason::Unexpected, ahead),
    }
}

// Why no other item is read, where as many as may be stand before.
fn no_item<'a>(ahead: Rest<'a>) -> Stop<'a>
    ensures { Fails {A = tree.Item} result
        (cap_at (of starts_item) (λ _. unexpected) (λ x. one_above Quantity.Items x.place)
        ahead.now) }
{
    match ahead {
        [first, rest @ ..] if first.class.starts_item() => {
            Stop::Over(one_above(Quantity::Items, first.place), rest)
        }
        _ => Stop::Bad(Reason::Unexpected, ahead),
    }
}

// A clause, behind its name.
#[tactic(auto, unfolding(crate::specs::Readers::clause_at))]
fn clause<'a>(level: Level, body: &Body, name: Local, ahead: Rest<'a>) -> Reading<'a, Item>
    ensures { Answers item_of result
        (within clause_at level.pass level.left (place_of body.now) name ahead.now) }
{
    if level
        .pass
        .is_full(Quantity::Clauses, body.clauses_before(&name.name))
    {
        return Err(no_clause(name.span, ahead));
    }
    equation(level, name, ahead)
}

// A signature or a clause.
#[tactic(auto, unfolding(crate::specs::Readers::defining_at))]
fn defining<'a>(level: Level, body: &Body, ahead: Rest<'a>) -> Reading<'a, Item>
    ensures { Answers item_of result
        (within defining_at level.pass level.left (place_of body.now) ahead.now) }
{
    let (name, rest) = simple_name(ahead)?;
    if begins(Class::Colon, rest) {
        signing(level, name, rest)
    } else {
        clause(level, body, name, rest)
    }
}

// An item.
#[tactic(auto, unfolding(crate::specs::Readers::item_at))]
fn item<'a>(level: Level, body: &Body, ahead: Rest<'a>) -> Reading<'a, Item>
    requires { 0 < level.left }
    ensures { Answers item_of result
        (within item_at level.pass level.left (place_of body.now) ahead.now) }
{
    if begins(Class::Data, ahead) {
        family(level, ahead)
    } else if begins(Class::Partial, ahead) {
        partial(level, ahead)
    } else if begins(Class::Zero, ahead) {
        erased(level, ahead)
    } else {
        defining(level, body, ahead)
    }
}

// An item, up to the limit.
fn another_item<'a>(level: Level, body: &Body, ahead: Rest<'a>) -> Reading<'a, Item>
    requires { 0 < level.left }
    ensures { Answers item_of result
        (up_to_at level.pass Quantity.Items (of starts_item) (λ _. unexpected)
        (within item_at level.pass level.left (place_of body.now))
        (place_of body.now).items ahead.now) }
{
    if level.pass.is_full(Quantity::Items, body.items.len()) {
        return Err(no_item(ahead));
    }
    item(level, body, ahead)
}

// An import, which stands before the first item.
#[tactic(auto, unfolding(crate::specs::Readers::import_at))]
fn import<'a>(level: Level, body: &Body, ahead: Rest<'a>) -> Reading<'a, Import>
    ensures { Answers imported result
        (within import_at level.pass level.left (place_of body.now) ahead.now) }
{
    match ahead {
        [first, rest @ ..] if body.items.is_empty() && Class::Import.same(first.class) => {
            let (name, rest) = any_name(rest)?;
            Ok((
                Import {
                    name: name.name,
                    span: first.place,
                },
                rest,
            ))
        }
        _ => Err(Stop::Bad(Reason::Unexpected, ahead)),
    }
}

// A Next with an import or an item.
#[tactic(auto, unfolding(crate::specs::Readers::entry_at))]
fn entry<'a>(level: Level, body: &Body, ahead: Rest<'a>) -> Reading<'a, Entry>
    requires { 0 < level.left }
    ensures { Answers entry_of result
        (within entry_at level.pass level.left (place_of body.now) ahead.now) }
{
    let (_, rest) = symbol(Class::Next, ahead)?;
    if begins(Class::Import, rest) {
        let (import, rest) = import(level, body, rest)?;
        return Ok((Entry::Import(import), rest));
    }
    let (item, rest) = another_item(level, body, rest)?;
    Ok((Entry::Item(item), rest))
}

// All imports and items.
#[tactic(auto, unfolding(crate::specs::Readers::entries_at))]
fn entries<'a>(level: Level, ahead: Rest<'a>) -> Reading<'a, Body>
    requires { 0 < level.left }
    ensures { Answers body_of result
        (making_at parts_of (within entries_at level.pass level.left start) ahead.now) }
{
    let mut body = Body::new(level.alloc)?;
    let mut rest = ahead;
    'entries: for _ in 0..ahead.len() {
        if !begins(Class::Next, rest) {
            return Ok((body, rest));
        }
        let (one, after) = entry(level, &body, rest)?;
        body.push(level.alloc, one)?;
        rest = after;
    }
    Ok((body, rest))
}

#[tactic(auto, unfolding(crate::specs::Readers::module_at))]
fn module<'a>(level: Level, ahead: Rest<'a>) -> Reading<'a, ModuleText>
    requires { 0 < level.left }
    ensures { Answers module_of result (within module_at level.pass level.left ahead.now) }
{
    let (_, rest) = symbol(Class::Open, ahead)?;
    let (header, rest) = symbol(Class::Module, rest)?;
    let (name, rest) = any_name(rest)?;
    let (body, rest) = entries(level, rest)?;
    let (_, rest) = symbol(Class::Close, rest)?;
    Ok((
        ModuleText {
            header,
            name: name.name,
            name_span: name.span,
            imports: body.imports,
            items: body.items,
        },
        rest,
    ))
}

/// A module's text.
#[tactic(auto, using(crate::proofs::Below::below_is), unfolding(crate::specs::Readers::text_at))]
pub fn text<'a>(alloc: Global, pass: Pass, ahead: Rest<'a>) -> Reading<'a, ModuleText>
    ensures { Answers module_of result (text_at pass ahead.now) }
{
    let left = 200;
    module(Level { alloc, pass, left }, ahead)
}
