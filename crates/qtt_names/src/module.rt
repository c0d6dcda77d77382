//! Items and modules with the targets of their names.

ghost use Rattle.std.specs.Prelude.{◌≡◌, ◌+◌, ◌++◌, map, fold, IfOk, OnOk};
ghost use Rattle.qtt_syntax.specs.View.{tree_of, statement_of, shape_of, param_of, con_of, item_of, module_of};
ghost use Rattle.qtt_syntax.specs.Tree.{statements};
ghost use Rattle.qtt_names.specs.Target.{own_item};
ghost use Rattle.qtt_names.specs.Resolved as meaning;
ghost use Rattle.qtt_names.specs.View.{Gives, scope as scope_seen, names_of, param_list, con_list, family_item, signature_item, clause_item, item_list, unchanged, hole_of};

use crate::errors::NamesError;
use crate::pattern::push_all_variables;
use crate::scope::Scope;
use crate::target::{Resolver, part};
use indexmap::IndexSet;
use qtt_base::{MemoryError, Name, Span};
use qtt_syntax::{
    Clause, ConDecl, Expr, FamilyDecl, Import, Item, ModuleText, Param, SignatureDecl, Statement,
};
use std::alloc::Global;

/// So many more.
fn more(number: u32, by: usize) -> Result<u32, MemoryError>
    ensures { IfOk result (λ n. n ≡ number + by) }
{
    match u32::try_from(by) {
        Ok(by) => match number.checked_add(by) {
            Some(number) => Ok(number),
            None => Err(MemoryError),
        },
        Err(_) => Err(MemoryError),
    }
}

/// The hole in tail position.
#[cycle(holes)]
fn tail_hole(source: &Expr) -> Option<(&Name, Span)>
    ensures { hole_of result ≡ meaning.tail_hole (tree_of source.now) }
{
    match source {
        Expr::Hole { name, span } => Some((name, *span)),
        Expr::Lambda { body, .. } | Expr::Let { body, .. } => tail_hole(body),
        Expr::Do { statements, .. } => last_hole(statements),
        _ => None,
    }
}

/// The hole in the last statement.
#[cycle(holes)]
fn last_hole(source: &[Statement]) -> Option<(&Name, Span)>
    ensures { hole_of result ≡ meaning.last_hole (statements (map statement_of source.now)) }
{
    match source.last() {
        Some(last) => statement_hole(last),
        None => None,
    }
}

#[cycle(holes)]
fn statement_hole(source: &Statement) -> Option<(&Name, Span)>
    ensures { hole_of result ≡ meaning.statement_hole (statement_of source.now) }
{
    match source {
        Statement::Run { value, .. } => tail_hole(value),
        Statement::Bind { .. } | Statement::Let { .. } => None,
    }
}

impl Resolver<'_> {
    /// A name that none of the first own items has.
    fn new_item(&self, items: u32, name: &Name, span: Span) -> Result<(), NamesError>
        ensures { Gives unchanged result
            (meaning.new_item (scope_seen self.now.scope.now) items name.now span) }
    {
        match self.scope.own_item(items, name) {
            Some(_) => Err(NamesError::duplicate(self.alloc, name, span)),
            None => Ok(()),
        }
    }

    /// A parameter, whose name is put behind the locals.
    #[tactic(auto, using(crate::proofs::Steps::ok_then, crate::proofs::Steps::err_then))]
    fn param(&self, locals: &mut Vec<Name>, source: &Param) -> Result<Param, NamesError>
        ensures gives { Gives param_of result
            (meaning.filled_param (names_of self.now) locals.old.items (param_of source.now)) }
        ensures behind { OnOk result
            (locals.new.items ≡ meaning.behind_param locals.old.items (param_of source.now)) }
    {
        let ty = self.expr(locals, &source.ty)?;
        locals.push(source.name.copy()?)?;
        Ok(Param {
            mult: source.mult,
            name: source.name.copy()?,
            ty,
            span: source.span,
        })
    }

    /// Parameters, whose names are put behind the locals.
    #[tactic(auto, using(crate::proofs::Steps::steps))]
    fn params(&self, locals: &mut Vec<Name>, source: &[Param]) -> Result<Vec<Param>, NamesError>
        ensures gives { Gives param_list result
            (meaning.filled_params (names_of self.now) locals.old.items
            (map param_of source.now)) }
        ensures behind { OnOk result
            (locals.new.items ≡ fold meaning.behind_param locals.old.items
            (map param_of source.now)) }
    {
        let mut done = Vec::with_capacity(self.alloc, source.len())?;
        for param in source {
            done.push(self.param(locals, param)?)?;
        }
        Ok(done)
    }

    /// The type of a family, whose indices have no names in scope.
    #[tactic(auto, using(crate::proofs::Steps::steps))]
    fn chain(&self, locals: &mut Vec<Name>, source: &Expr) -> Result<Expr, NamesError>
        ensures gives { Gives tree_of result
            (meaning.filled_chain (names_of self.now) locals.old.items (tree_of source.now)) }
        ensures kept { OnOk result (locals.new.items ≡ locals.old.items) }
    {
        match source {
            Expr::Pi {
                mark,
                mult,
                name,
                domain,
                codomain,
                span,
            } => {
                let domain = Box::new(self.alloc, self.expr(locals, domain)?)?;
                let depth = locals.len();
                locals.push(part(self.alloc, "_")?)?;
                let codomain = Box::new(self.alloc, self.chain(locals, codomain)?)?;
                locals.truncate(depth);
                Ok(Expr::Pi {
                    mark: *mark,
                    mult: *mult,
                    name: name.copy()?,
                    domain,
                    codomain,
                    span: *span,
                })
            }
            _ => self.expr(locals, source),
        }
    }

    /// A constructor that is the own item of this number.
    #[tactic(auto, using(crate::proofs::Steps::steps))]
    fn constructor(
        &self,
        locals: &mut Vec<Name>,
        number: u32,
        source: &ConDecl,
    ) -> Result<ConDecl, NamesError>
        ensures gives { Gives con_of result
            (meaning.filled_con (scope_seen self.now.scope.now)
            (names_of self.now) locals.old.items number (con_of source.now)) }
        ensures kept { OnOk result (locals.new.items ≡ locals.old.items) }
    {
        self.new_item(number, &source.name, source.span)?;
        Ok(ConDecl {
            name: source.name.copy()?,
            ty: self.expr(locals, &source.ty)?,
            span: source.span,
        })
    }

    /// Constructors, of which the first is the own item of this number.
    #[tactic(auto, using(crate::proofs::Steps::steps))]
    fn constructors(
        &self,
        locals: &mut Vec<Name>,
        first: u32,
        source: &[ConDecl],
    ) -> Result<Vec<ConDecl>, NamesError>
        ensures { Gives con_list result
            (meaning.filled_cons (scope_seen self.now.scope.now)
            (names_of self.now) locals.old.items first (map con_of source.now)) }
    {
        let mut done = Vec::with_capacity(self.alloc, source.len())?;
        let mut number = first;
        for constructor in source {
            done.push(self.constructor(locals, number, constructor)?)?;
            number = more(number, 1)?;
        }
        Ok(done)
    }

    /// A family that is the next own item.
    #[tactic(auto, using(crate::proofs::Members::members))]
    fn family(&self, source: &FamilyDecl) -> Result<FamilyDecl, NamesError>
        ensures { Gives family_item result
            (meaning.filled_family (scope_seen self.now.scope.now) self.now.items source.now.name
            source.now.name_span (map param_of source.now.params.items) (tree_of source.now.ty)
            (map con_of source.now.constructors.items) source.now.span) }
    {
        self.new_item(self.items, &source.name, source.name_span)?;
        let mut locals = Vec::new(self.alloc);
        let params = self.params(&mut locals, &source.params)?;
        let ty = self.chain(&mut locals, &source.ty)?;
        let first = more(self.items, 1)?;
        let inside = Resolver {
            alloc: self.alloc,
            scope: self.scope,
            items: first,
        };
        let constructors = inside.constructors(&mut locals, first, &source.constructors)?;
        Ok(FamilyDecl {
            name: source.name.copy()?,
            name_span: source.name_span,
            params,
            ty,
            constructors,
            span: source.span,
        })
    }

    /// A signature that is the next own item.
    #[tactic(auto, using(crate::proofs::Steps::steps))]
    fn signature(&self, source: &SignatureDecl) -> Result<SignatureDecl, NamesError>
        ensures { Gives signature_item result
            (meaning.filled_signature (scope_seen self.now.scope.now) self.now.items
            source.now.partial source.now.mult source.now.name source.now.name_span
            (tree_of source.now.ty) source.now.span) }
    {
        self.new_item(self.items, &source.name, source.name_span)?;
        let mut locals = Vec::new(self.alloc);
        Ok(SignatureDecl {
            partial: source.partial,
            mult: source.mult,
            name: source.name.copy()?,
            name_span: source.name_span,
            ty: self.expr(&mut locals, &source.ty)?,
            span: source.span,
        })
    }

    /// The name of a clause, which goes on or begins a group.
    fn new_clause(
        &self,
        last: &Option<Name>,
        groups: &mut IndexSet<Name>,
        name: &Name,
        span: Span,
    ) -> Result<(), NamesError>
        ensures gives { Gives unchanged result
            (meaning.new_clause (scope_seen self.now.scope.now) self.now.items last.now
            groups.old.keys name.now span) }
        ensures noted { OnOk result
            (groups.new.keys ≡ meaning.with_group last.now groups.old.keys name.now) }
    {
        if !self.is_definition(name) {
            return Err(NamesError::unbound(self.alloc, name, span));
        }
        if goes_on(last, name) {
            return Ok(());
        }
        self.note(groups, name, span)
    }

    /// The name is that of a definition that stands earlier.
    fn is_definition(&self, name: &Name) -> bool
        ensures { result ≡ meaning.is_definition
            (own_item (scope_seen self.now.scope.now) self.now.items name.now) }
    {
        match self.scope.own_item(self.items, name) {
            Some(item) => item.is_definition,
            None => false,
        }
    }

    fn new_hole(
        &self,
        holes: &mut IndexSet<Name>,
        hole: Option<(&Name, Span)>,
    ) -> Result<(), NamesError>
        ensures gives { Gives unchanged result
            (meaning.new_hole holes.old.keys (hole_of hole.entry)) }
        ensures noted { OnOk result
            (holes.new.keys ≡ holes.old.keys ++ meaning.hole_name (hole_of hole.entry)) }
    {
        match hole {
            Some((name, span)) => self.note(holes, name, span),
            None => Ok(()),
        }
    }

    #[tactic(auto, using(crate::proofs::Steps::steps))]
    fn clause(
        &self,
        last: &Option<Name>,
        groups: &mut IndexSet<Name>,
        holes: &mut IndexSet<Name>,
        source: &Clause,
    ) -> Result<Clause, NamesError>
        ensures gives { Gives clause_item result
            (meaning.filled_clause (scope_seen self.now.scope.now)
            (record {
              items = self.now.items;
              groups = groups.old.keys;
              last = last.now;
              holes = holes.old.keys;
            }) source.now.name (map shape_of source.now.patterns.items)
            (tree_of source.now.side) source.now.span) }
        ensures groups { OnOk result
            (groups.new.keys ≡ meaning.with_group last.now groups.old.keys source.now.name) }
        ensures holes { OnOk result
            (holes.new.keys ≡ holes.old.keys ++ meaning.hole_name
            (meaning.tail_hole (tree_of source.now.side))) }
    {
        self.new_clause(last, groups, &source.name, source.span)?;
        let mut variables = Vec::new(self.alloc);
        push_all_variables(&mut variables, &source.patterns)?;
        let mut before = IndexSet::new(self.alloc);
        let patterns = self.patterns(&mut variables, &mut before, &source.patterns)?;
        let side = self.expr(&mut variables, &source.side)?;
        self.new_hole(holes, tail_hole(&source.side))?;
        Ok(Clause {
            name: source.name.copy()?,
            patterns,
            side,
            span: source.span,
        })
    }

    #[tactic(auto, using(crate::proofs::Steps::steps), unfolding(crate::specs::Resolved::filled_item))]
    fn item(
        &self,
        last: &Option<Name>,
        groups: &mut IndexSet<Name>,
        holes: &mut IndexSet<Name>,
        source: &Item,
    ) -> Result<Item, NamesError>
        ensures gives { Gives item_of result
            (meaning.filled_item (scope_seen self.now.scope.now)
            (record {
              items = self.now.items;
              groups = groups.old.keys;
              last = last.now;
              holes = holes.old.keys;
            }) (item_of source.now)) }
        ensures groups { OnOk result
            (groups.new.keys ≡ meaning.groups_behind last.now groups.old.keys
            (item_of source.now)) }
        ensures holes { OnOk result
            (holes.new.keys ≡ meaning.holes_behind holes.old.keys (item_of source.now)) }
    {
        match source {
            Item::Family(family) => Ok(Item::Family(self.family(family)?)),
            Item::Signature(signature) => Ok(Item::Signature(self.signature(signature)?)),
            Item::Clause(clause) => Ok(Item::Clause(self.clause(last, groups, holes, clause)?)),
        }
    }
}

/// The clause directly before is one of this name.
fn goes_on(last: &Option<Name>, name: &Name) -> bool
    ensures { result ≡ meaning.goes_on last.now name.now }
{
    match last {
        Some(last) => *name == *last,
        None => false,
    }
}

/// How many own items an item declares.
fn count_of(item: &Item) -> usize
    ensures { result ≡ meaning.count_of (item_of item.now) }
{
    match item {
        Item::Family(family) => family.constructors.len() + 1,
        Item::Signature(_) => 1,
        Item::Clause(_) => 0,
    }
}

/// The name of a clause.
fn clause_name(item: &Item) -> Result<Option<Name>, MemoryError>
    ensures { IfOk result (λ name. name ≡ meaning.clause_name (item_of item.now)) }
{
    match item {
        Item::Clause(clause) => Ok(Some(clause.name.copy()?)),
        Item::Family(_) | Item::Signature(_) => Ok(None),
    }
}

#[tactic(auto, using(crate::proofs::Steps::steps))]
fn items(alloc: Global, text: &[Item], scope: &Scope) -> Result<Vec<Item>, NamesError>
    ensures { Gives item_list result
        (meaning.filled_items (scope_seen scope.now) meaning.at_start (map item_of text.now)) }
{
    let mut done = Vec::with_capacity(alloc, text.len())?;
    let mut items = 0;
    let mut last = None;
    let mut groups = IndexSet::new(alloc);
    let mut holes = IndexSet::new(alloc);
    for item in text {
        let resolver = Resolver {
            alloc,
            scope,
            items,
        };
        done.push(resolver.item(&last, &mut groups, &mut holes, item)?)?;
        items = more(items, count_of(item))?;
        last = clause_name(item)?;
    }
    Ok(done)
}

fn copied_imports(alloc: Global, imports: &[Import]) -> Result<Vec<Import>, MemoryError>
    ensures { IfOk result (λ v. v.items ≡ imports.now) }
{
    let mut copies = Vec::with_capacity(alloc, imports.len())?;
    for import in imports {
        copies.push(Import {
            name: import.name.copy()?,
            span: import.span,
        })?;
    }
    Ok(copies)
}

/// The text with the target of each name, or its first fault in text order: kind 10 where
/// nothing of the name is in scope, 11 where several things are, and 12 at the second item,
/// group of clauses, variable of a clause, or hole of one name. The scope is meant to be that of
/// the text.
#[tactic(auto, using(crate::proofs::Steps::steps))]
pub fn resolve(alloc: Global, text: &ModuleText, scope: &Scope) -> Result<ModuleText, NamesError>
    ensures { Gives module_of result
        (meaning.resolved (scope_seen scope.now) (module_of text.now)) }
{
    Ok(ModuleText {
        header: text.header,
        name: text.name.copy()?,
        name_span: text.name_span,
        imports: copied_imports(alloc, &text.imports)?,
        items: items(alloc, &text.items, scope)?,
    })
}
