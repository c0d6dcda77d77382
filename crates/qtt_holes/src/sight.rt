//! Names in sight.

ghost use Rattle.std.specs.Prelude.{◌≡◌, ◌+◌, ◌++◌, ◌∷◌, [], map, reverse, drop, option_map, MatchResult, IfOk};
ghost use Rattle.qtt_rules.specs.declared.errors.ElabError.TheVariants.{Memory};
ghost use Rattle.qtt_bidi.specs.Seen.{locals};
ghost use Rattle.qtt_holes.specs.Calls.{untold_sight};
ghost use Rattle.qtt_holes.specs.Hole.{is_written};
ghost use Rattle.qtt_holes.specs.View.{seen as seen_of, names_of};
ghost use Rattle.qtt_holes.specs.Walk.{bound_names};

use crate::hole::Seen;
use qtt_base::{MemoryError, Name};
use qtt_bidi::Scope;
use qtt_rules::ElabError;
use qtt_syntax::Local;
use std::alloc::Global;

/// Names: those where a walk began, the outermost first, and those that were bound on the way.
#[derive(Drop)]
pub enum Names<'a> {
    Outer(&'a [Name]),
    Inner(&'a Names<'a>, &'a Name),
    /// A variable that no name stands for.
    Unnamed(&'a Names<'a>),
}

impl<'a> Names<'a> {
    /// The names under one more binder.
    pub fn with(&'a self, name: Option<&'a Local>) -> Names<'a>
        ensures { names_of result ≡ bound_names (option_map (λ x. x.now) name.entry)
            (names_of self.now) }
    {
        match name {
            Some(local) => Names::Inner(self, &local.name),
            None => Names::Unnamed(self),
        }
    }
}

/// Whether a text can write the name of a variable.
fn is_written(name: &Name) -> bool
    ensures { result ≡ is_written name.now }
{
    match name.as_str().as_bytes() {
        [] => false,
        [first, ..] => name.as_str() != "_" && *first != b'\'',
    }
}

fn next(index: u32) -> Result<u32, MemoryError>
    ensures { IfOk result (λ n. n ≡ index + 1) }
{
    match index.checked_add(1) {
        Some(next) => Ok(next),
        None => Err(MemoryError),
    }
}

/// One name more, the one with so many others inside it, where it is in sight.
fn put(
    alloc: Global,
    scope: &Scope<'_>,
    seen: Vec<Seen>,
    name: &Name,
    index: u32,
) -> Result<Vec<Seen>, ElabError>
    ensures { MatchResult result
        (λ v. map seen_of v.items ≡ map seen_of seen.items ++
        untold_sight (name.now ∷ []) (drop index (locals scope.now).names)) (λ e. e ≡ Memory) }
{
    if !is_written(name) {
        return Ok(seen);
    }
    let Some((stands, ty)) = scope.name(alloc, index, 0)? else {
        return Ok(seen);
    };
    let name = name.copy()?;
    let mut seen = seen;
    seen.push(Seen {
        name,
        ty,
        stands,
        left: None,
    })?;
    Ok(seen)
}

/// Those of these names that are in sight, the outermost first; the innermost has so many others
/// inside it. It is not yet told what is left of them.
fn outer_sight(
    alloc: Global,
    scope: &Scope<'_>,
    names: &[Name],
    index: u32,
) -> Result<Vec<Seen>, ElabError>
    ensures { MatchResult result
        (λ v. map seen_of v.items ≡
        untold_sight (reverse names.now) (drop index (locals scope.now).names))
        (λ e. e ≡ Memory) }
{
    match names {
        [] => Ok(Vec::new(alloc)),
        [rest @ .., name] => {
            let seen = outer_sight(alloc, scope, rest, next(index)?)?;
            put(alloc, scope, seen, name, index)
        }
    }
}

/// The names in sight, the outermost first; the innermost of them has so many others inside it.
/// It is not yet told what is left of them.
pub fn in_sight(
    alloc: Global,
    scope: &Scope<'_>,
    names: &Names<'_>,
    index: u32,
) -> Result<Vec<Seen>, ElabError>
    ensures { MatchResult result
        (λ v. map seen_of v.items ≡
        untold_sight (names_of names.now) (drop index (locals scope.now).names))
        (λ e. e ≡ Memory) }
{
    match names {
        Names::Outer(names) => outer_sight(alloc, scope, names, index),
        Names::Unnamed(outer) => in_sight(alloc, scope, outer, index),
        Names::Inner(outer, name) => {
            let seen = in_sight(alloc, scope, outer, next(index)?)?;
            put(alloc, scope, seen, name, index)
        }
    }
}
