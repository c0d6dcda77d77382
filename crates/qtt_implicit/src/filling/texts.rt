//! Texts with what is filled in.

ghost use Rattle.std.specs.Prelude.{◌≡◌, ◌∷◌, ℕ, Result, [], map, IfOk};
ghost use Rattle.qtt_base.specs.Limits.{standard};
ghost use Rattle.qtt_names.specs.Exports.{exports_of, sig_of};
ghost use Rattle.qtt_names.specs.PrimSigs.{prim_exports};
ghost use Rattle.qtt_syntax.specs.View.{item_of, module_of};
ghost use Rattle.qtt_implicit.specs.Answering.{Answers, Fills, FillsAll, IsRefusal, counted_item, sig_of_own};
ghost use Rattle.qtt_implicit.specs.Filled.{Grown, filled, filled_item, filled_items, grown};
ghost use Rattle.qtt_implicit.specs.Filling as filling;
ghost use Rattle.qtt_implicit.specs.Growing.{Grows};
ghost use Rattle.qtt_implicit.specs.Items.{item_tree};
ghost use Rattle.qtt_implicit.specs.KnownItems.{import_of, known_of};
ghost use Rattle.qtt_implicit.specs.Meeting.{IsStop};
ghost use Rattle.qtt_implicit.specs.Signatures.{signature_of};
ghost use Rattle.qtt_implicit.specs.declared.filling.texts.ImplicitError.TheVariants.{Memory};

use super::families::Tools;
use super::items::{ItemNode, item_nodes, place_of, read_item, written_item};
use super::known::{Import, Known};
use super::left::Left;
use super::own_items::{OwnItem, OwnItems};
use super::reading::read;
use super::signature::Signature;
use super::stop::Stop;
use super::walking::Literals;
use super::writing::written;
use crate::forgetting::copied_imports;
use bumpalo::Bump;
use qtt_base::{MemoryError, ModuleId, Name, Span};
use qtt_names::{Exports, Sig};
use qtt_syntax::{Item, ModuleText};
use std::alloc::{AllocError, AllocFailed, Global};
use thiserror::Error;

/// A text with its implicit arguments, and the signatures that it exports, in the order of its
/// items' numbers.
#[derive(Drop)]
pub struct FilledText {
    pub text: ModuleText,
    pub sigs: Vec<Sig>,
}

/// The first refusal in the order of the walk, or want of memory.
#[derive(Debug, Drop, Error)]
pub enum ImplicitError {
    /// The binder in braces that is not filled, at the used name.
    #[error("an implicit argument is not found")]
    Unsolved(Name, Span),
    /// How many binders in braces there are, and how many arguments in braces, at the used name.
    #[error("{1} arguments in braces, where there are {0} binders")]
    Braces(u32, u32, Span),
    /// How many nodes there are at least in the item that stands here: one above the limit.
    #[error("an item has {0} nodes or more")]
    TooLarge(u32, Span),
    #[error("out of memory")]
    Memory,
}

impl From<MemoryError> for ImplicitError {
    ghost from_gives = { λ _ e. e ≡ Memory };

    fn from(_error: MemoryError) -> ImplicitError {
        ImplicitError::Memory
    }
}

impl From<AllocError> for ImplicitError {
    ghost from_gives = { λ _ e. e ≡ Memory };

    fn from(_error: AllocError) -> ImplicitError {
        ImplicitError::Memory
    }
}

impl<T: Drop> From<AllocFailed<T>> for ImplicitError {
    ghost from_gives = { λ _ e. e ≡ Memory };

    fn from(_error: AllocFailed<T>) -> ImplicitError {
        ImplicitError::Memory
    }
}

/// The most nodes that an item may have.
const MOST_NODES: u64 = 1_000_000;

/// Why filling stopped in an item that stands here.
fn refused(stop: Stop<'_>, place: Span) -> ImplicitError
    ensures { (o : Result (Grown × ℕ) filling.Stop) → IsStop stop.entry o →
        IsRefusal result (grown 1000000 place o) }
{
    match stop {
        Stop::Unsolved { name, span } => match name.copy() {
            Ok(name) => ImplicitError::Unsolved(name, span),
            Err(_) => ImplicitError::Memory,
        },
        Stop::Braces { most, found, span } => ImplicitError::Braces(most, found, span),
        Stop::TooLarge => ImplicitError::TooLarge(1_000_001, place),
        Stop::Memory => ImplicitError::Memory,
    }
}

impl<'a> Tools<'a> {
    /// An item, whose own nodes are counted first.
    fn counted(self, known: &mut Known<'a>, item: ItemNode<'a>) -> Result<ItemNode<'a>, Stop<'a>>
        ensures { (after : ℕ) × Grows item_tree (known_of known.old) result
            (known_of known.new)
            (counted_item (known_of known.old) (item_tree item.entry) 1000000) after }
    {
        let mut left = Left { nodes: MOST_NODES };
        left.put(item_nodes(&item))?;
        self.item(known, item, &mut left)
    }

    /// An item, written.
    fn filled(self, known: &mut Known<'a>, source: &'a Item) -> Result<Item, ImplicitError>
        ensures { Fills (known_of known.old) result (known_of known.new)
            (filled_item standard.filled_nodes (known_of known.old) (item_of source.now)) }
    {
        let item = read_item(self.arena, source)?;
        match self.counted(known, item) {
            Ok(filled) => Ok(written_item(self.alloc, &filled)?),
            Err(stop) => Err(refused(stop, place_of(&item))),
        }
    }

    /// Items, written, each of which sees those before it.
    fn items(self, known: &mut Known<'a>, source: &'a [Item]) -> Result<Vec<Item>, ImplicitError>
        ensures { FillsAll result (known_of known.new)
            (filled_items standard.filled_nodes (known_of known.old) (map item_of source.now)) }
    {
        let mut items = Vec::with_capacity(self.alloc, source.len())?;
        for item in source {
            items.push(self.filled(known, item)?)?;
        }
        Ok(items)
    }
}

/// The signatures of the own items.
fn written_sigs(alloc: Global, own: &[OwnItem<'_>]) -> Result<Vec<Sig>, MemoryError>
    ensures { IfOk result (λ sigs. map sig_of sigs.items ≡ map sig_of_own own.now) }
{
    let mut sigs = Vec::with_capacity(alloc, own.len())?;
    for item in own {
        sigs.push(Sig {
            braces: item.sig.braces,
            params: item.sig.params,
            ty: written(alloc, item.sig.ty)?,
        })?;
    }
    Ok(sigs)
}

/// Signatures, read into the arena.
fn read_sigs<'a>(
    alloc: Global,
    arena: &'a Bump,
    source: &'a [Sig],
) -> Result<Vec<Signature<'a>>, MemoryError>
    ensures { IfOk result (λ sigs. map signature_of sigs.items ≡ map sig_of source.now) }
{
    let mut sigs = Vec::with_capacity(alloc, source.len())?;
    for sig in source {
        sigs.push(Signature {
            braces: sig.braces,
            params: sig.params,
            ty: read(arena, &sig.ty)?,
        })?;
    }
    Ok(sigs)
}

/// A module that is imported.
fn import<'a>(
    alloc: Global,
    arena: &'a Bump,
    exports: &'a Exports,
) -> Result<Import<'a>, MemoryError>
    ensures { IfOk result (λ i. import_of i ≡ exports_of exports.now) }
{
    Ok(Import {
        exports,
        sigs: read_sigs(alloc, arena, &exports.sigs)?,
    })
}

/// What a text sees at its start.
fn at_start<'a>(
    alloc: Global,
    arena: &'a Bump,
    home: ModuleId,
    prim: &'a Exports,
    imports: &'a [Exports],
) -> Result<Known<'a>, MemoryError>
    ensures { IfOk result (λ known. known_of known ≡ record {
      home = home;
      own = [];
      imports = exports_of prim.now ∷ map exports_of imports.now;
    }) }
{
    let mut seen = Vec::with_capacity(alloc, imports.len())?;
    seen.push(import(alloc, arena, prim)?)?;
    for exports in imports {
        seen.push(import(alloc, arena, exports)?)?;
    }
    Ok(Known {
        home,
        own: OwnItems::new(alloc),
        imports: seen,
    })
}

fn literal(alloc: Global, text: &str) -> Result<Name, MemoryError>
    ensures { IfOk result (λ name. name ≡ text.now) }
{
    match Name::new(alloc, text) {
        Ok(name) => Ok(name),
        Err(_) => Err(MemoryError),
    }
}

/// The names of the types of literals.
fn literals(alloc: Global) -> Result<Literals, MemoryError> {
    Ok(Literals {
        int: literal(alloc, "Int")?,
        string: literal(alloc, "String")?,
    })
}

/// A text that sees this of Prim, and what it imports, filled.
fn filled_in<'a>(
    tools: Tools<'a>,
    module: ModuleId,
    text: &'a ModuleText,
    prim: &'a Exports,
    imports: &'a [Exports],
) -> Result<FilledText, ImplicitError>
    requires { exports_of prim.now ≡ prim_exports }
    ensures { Answers result (filled «module» (map exports_of imports.now)
        (module_of text.now)) }
{
    let alloc = tools.alloc;
    let mut known = at_start(alloc, tools.arena, module, prim, imports)?;
    let items = tools.items(&mut known, &text.items)?;
    Ok(FilledText {
        text: ModuleText {
            header: text.header,
            name: text.name.copy()?,
            name_span: text.name_span,
            imports: copied_imports(alloc, &text.imports)?,
            items,
        },
        sigs: written_sigs(alloc, &known.own.items)?,
    })
}

/// The same in an arena.
fn filled_with<'a>(
    alloc: Global,
    arena: &'a Bump,
    literals: &'a Literals,
    prim: &'a Exports,
    module: ModuleId,
    text: &'a ModuleText,
    imports: &'a [Exports],
) -> Result<FilledText, ImplicitError>
    requires { exports_of prim.now ≡ prim_exports }
    ensures { Answers result (filled «module» (map exports_of imports.now)
        (module_of text.now)) }
{
    let tools = Tools {
        alloc,
        arena,
        literals,
    };
    filled_in(tools, module, text, prim, imports)
}

/// The text of this module with its implicit arguments filled in, and its signatures; or the
/// first refusal in the order of the walk. The signatures of Prim, of `imports` and of earlier
/// items are seen.
pub fn fill(
    alloc: Global,
    module: ModuleId,
    text: &ModuleText,
    imports: &[Exports],
) -> Result<FilledText, ImplicitError>
    ensures gives { Answers result (filled «module» (map exports_of imports.now)
        (module_of text.now)) }
{
    let arena = Bump::new(alloc);
    let literals = literals(alloc)?;
    let prim = Exports::prim(alloc)?;
    filled_with(alloc, &arena, &literals, &prim, module, text, imports)
}
