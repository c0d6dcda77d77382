//! Texts without what was filled in.

ghost use Rattle.std.specs.Prelude.{◌≡◌, map, IfOk};
ghost use Rattle.qtt_syntax.specs.declared.module.Item.TheVariants as item;
ghost use Rattle.qtt_syntax.specs.View.{tree_of, param_of, con_of, item_of, module_of};
ghost use Rattle.qtt_implicit.specs.Forget.{param_forgotten, con_forgotten, item_forgotten, text_forgotten, forgotten as tree_forgotten};

mod expr;
pub(crate) mod numbers;
mod pattern;

use numbers::Numbers;
use pattern::push_all_marks;
use qtt_base::MemoryError;
use qtt_syntax::{
    Clause, ConDecl, Expr, FamilyDecl, Import, Item, ModuleText, Param, SignatureDecl,
};
use std::alloc::Global;

/// The text without what was filled in. The local names of its clauses have their written numbers.
pub fn forget(alloc: Global, text: &ModuleText) -> Result<ModuleText, MemoryError>
    ensures { IfOk result (λ written. module_of written ≡ text_forgotten (module_of text.now)) }
{
    let mut items = Vec::with_capacity(alloc, text.items.len())?;
    for item in &text.items {
        items.push(item_without(alloc, item)?)?;
    }
    Ok(ModuleText {
        header: text.header,
        name: text.name.copy()?,
        name_span: text.name_span,
        imports: copied_imports(alloc, &text.imports)?,
        items,
    })
}

pub(crate) fn copied_imports(alloc: Global, source: &[Import]) -> Result<Vec<Import>, MemoryError>
    ensures { IfOk result (λ copies. copies.items ≡ source.now) }
{
    let mut copies = Vec::with_capacity(alloc, source.len())?;
    for import in source {
        copies.push(Import {
            name: import.name.copy()?,
            span: import.span,
        })?;
    }
    Ok(copies)
}

/// An expression in which no variable of a clause stands.
fn closed(alloc: Global, source: &Expr) -> Result<Expr, MemoryError>
    ensures { IfOk result (λ e. tree_of e ≡ tree_forgotten (tree_of source.now)) }
{
    Numbers::kept(alloc).expr(alloc, 0, source)
}

fn params_without(alloc: Global, source: &[Param]) -> Result<Vec<Param>, MemoryError>
    ensures { IfOk result (λ done. map param_of done.items ≡ map param_forgotten
        (map param_of source.now)) }
{
    let mut done = Vec::with_capacity(alloc, source.len())?;
    for param in source {
        done.push(Param {
            mult: param.mult,
            name: param.name.copy()?,
            ty: closed(alloc, &param.ty)?,
            span: param.span,
        })?;
    }
    Ok(done)
}

fn constructors_without(alloc: Global, source: &[ConDecl]) -> Result<Vec<ConDecl>, MemoryError>
    ensures { IfOk result (λ done. map con_of done.items ≡ map con_forgotten
        (map con_of source.now)) }
{
    let mut done = Vec::with_capacity(alloc, source.len())?;
    for constructor in source {
        done.push(ConDecl {
            name: constructor.name.copy()?,
            ty: closed(alloc, &constructor.ty)?,
            span: constructor.span,
        })?;
    }
    Ok(done)
}

fn family_without(alloc: Global, source: &FamilyDecl) -> Result<FamilyDecl, MemoryError>
    ensures { IfOk result (λ done. item_of (item.Family done) ≡ item_forgotten
        (item_of (item.Family source.now))) }
{
    Ok(FamilyDecl {
        name: source.name.copy()?,
        name_span: source.name_span,
        params: params_without(alloc, &source.params)?,
        ty: closed(alloc, &source.ty)?,
        constructors: constructors_without(alloc, &source.constructors)?,
        span: source.span,
    })
}

fn signature_without(alloc: Global, source: &SignatureDecl) -> Result<SignatureDecl, MemoryError>
    ensures { IfOk result (λ done. item_of (item.Signature done) ≡ item_forgotten
        (item_of (item.Signature source.now))) }
{
    Ok(SignatureDecl {
        partial: source.partial,
        mult: source.mult,
        name: source.name.copy()?,
        name_span: source.name_span,
        ty: closed(alloc, &source.ty)?,
        span: source.span,
    })
}

fn clause_without(alloc: Global, source: &Clause) -> Result<Clause, MemoryError>
    ensures { IfOk result (λ done. item_of (item.Clause done) ≡ item_forgotten
        (item_of (item.Clause source.now))) }
{
    let mut marks = Vec::new(alloc);
    push_all_marks(&mut marks, &source.patterns)?;
    marks.reverse();
    let numbers = Numbers::among(alloc, &marks)?;
    Ok(Clause {
        name: source.name.copy()?,
        patterns: numbers.patterns(alloc, &source.patterns)?,
        side: numbers.expr(alloc, 0, &source.side)?,
        span: source.span,
    })
}

fn item_without(alloc: Global, source: &Item) -> Result<Item, MemoryError>
    ensures { IfOk result (λ done. item_of done ≡ item_forgotten (item_of source.now)) }
{
    match source {
        Item::Family(family) => Ok(Item::Family(family_without(alloc, family)?)),
        Item::Signature(signature) => Ok(Item::Signature(signature_without(alloc, signature)?)),
        Item::Clause(clause) => Ok(Item::Clause(clause_without(alloc, clause)?)),
    }
}
