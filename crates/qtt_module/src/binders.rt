//! Parameters, indices and fields.

ghost use Rattle.std.specs.Prelude.{◌≡◌, ◌≤◌, IfOk, IsTrue, drop, length, map, take};
ghost use Rattle.qtt_syntax.specs.View.{tree_of, param_of};
ghost use Rattle.qtt_term.specs.Scope.{scope_of};
ghost use Rattle.qtt_term.specs.Telescopes.{tele};
ghost use Rattle.qtt_term.specs.View.{term, terms};
ghost use Rattle.qtt_bidi.specs.Calls.{Answers, entries_of};
ghost use Rattle.qtt_module.specs.Families.{pieces, type_of as type_asks, field_type as field_asks, parameters as parameters_ask, indices as indices_ask, fields as fields_ask};
ghost use Rattle.qtt_module.specs.FamilyParts.{are_erased};
ghost use Rattle.qtt_module.specs.FamilyView.{opened_behind};

use crate::contexts::{with_index, with_name};
use crate::declarer::Declarer;
use qtt_base::{Name, Span};
use qtt_bidi::{Scope, first_token};
use qtt_rules::{Detail, ElabError};
use qtt_syntax::{Expr, Param};
use qtt_term::{Converter, Ctx, Rule, Term};
use qtt_usage::mult::Mult;

/// The types of a family's first indices, and the context behind them.
#[derive(Debug, Drop)]
pub struct Indices {
    pub types: Vec<Term>,
    pub context: Ctx,
}

impl<'a, C: Converter> Declarer<'a, C> {
    /// The type of a parameter, an index or a definition of this item, by this premise.
    pub fn type_of(
        &self,
        context: &Ctx,
        name: &Name,
        number: u8,
        ty: &Expr,
    ) -> Result<Term, ElabError>
        ensures { Answers self.now.elaborator
            (type_asks (entries_of self.now.elaborator) (scope_of context.now) name.now number
            (tree_of ty.now)) term result }
    {
        let scope = Scope::Outer(context);
        let found = self.elaborator.is_type(&scope, ty, Rule::Families, number)?;
        self.accepted(context, name, None, first_token(ty), &found.core)?;
        Ok(found.core)
    }

    /// The type of a field of this constructor, at a binder that stands there, in a family of this
    /// level.
    fn field_type(
        &self,
        context: &Ctx,
        name: &Name,
        level: u32,
        span: Span,
        ty: &Expr,
    ) -> Result<Term, ElabError>
        ensures { Answers self.now.elaborator
            (field_asks (entries_of self.now.elaborator) (scope_of context.now) name.now level span
            (tree_of ty.now)) term result }
    {
        let scope = Scope::Outer(context);
        let found = self.elaborator.is_type(&scope, ty, Rule::Families, 4)?;
        if found.level > level {
            let kept = Detail::WrongLevel {
                declared: level,
                found: found.level,
            };
            return Err(ElabError::Refused(kept, span, Rule::Families, 5));
        }
        self.accepted(context, name, Some(level), first_token(ty), &found.core)?;
        Ok(found.core)
    }

    /// The context behind parameters.
    pub fn parameters(&self, name: &Name, context: Ctx, params: &[Param]) -> Result<Ctx, ElabError>
        ensures gives { Answers self.now.elaborator
            (parameters_ask (entries_of self.now.elaborator) name.now (scope_of context)
            (map param_of params.now)) (opened_behind (length context.vars.items)) result }
        ensures kept { IfOk result (λ c. take (length context.vars.items) (tele c.vars.items) ≡
            tele context.vars.items) }
        ensures erased { IsTrue (are_erased (tele context.vars.items)) →
            IfOk result (λ c. IsTrue (are_erased (tele c.vars.items))) }
    {
        match params {
            [] => Ok(context),
            [first, rest @ ..] => {
                let ty = self.type_of(&context, name, 1, &first.ty)?;
                let inner = with_name(self.elaborator.alloc, context, Mult::Zero, ty)?;
                self.parameters(name, inner, rest)
            }
        }
    }

    /// The indices of a chain of binders behind others.
    pub fn indices(&self, name: &Name, before: Indices, chain: &Expr) -> Result<Indices, ElabError>
        ensures gives { Answers self.now.elaborator
            (indices_ask (entries_of self.now.elaborator) name.now (scope_of before.context)
            (pieces (tree_of chain.now)))
            (λ i. drop (length before.types.items) (terms i.types.items)) result }
        ensures kept { IfOk result (λ i. take (length before.types.items) (terms i.types.items) ≡
            terms before.types.items) }
        ensures vars { IfOk result (λ i. i.context.vars ≡ before.context.vars) }
        ensures names { IfOk result (λ i.
            take (length before.context.names.items) i.context.names.items ≡
            before.context.names.items) }
    {
        match chain {
            Expr::Pi {
                domain,
                codomain,
                ..
            } => {
                let Indices { types, context } = before;
                let ty = self.type_of(&context, name, 3, domain)?;
                let mut types = types;
                types.push(ty)?;
                let context = with_index(context)?;
                self.indices(name, Indices { types, context }, codomain)
            }
            _ => Ok(before),
        }
    }

    /// The context behind the fields of a chain of binders, of this constructor, in a family of
    /// this level.
    pub fn fields(
        &self,
        name: &Name,
        level: u32,
        context: Ctx,
        chain: &Expr,
    ) -> Result<Ctx, ElabError>
        ensures gives { Answers self.now.elaborator
            (fields_ask (entries_of self.now.elaborator) name.now level (scope_of context)
            (pieces (tree_of chain.now))) (opened_behind (length context.vars.items)) result }
        ensures kept { IfOk result (λ c. take (length context.vars.items) (tele c.vars.items) ≡
            tele context.vars.items) }
        ensures more { IfOk result (λ c. length context.vars.items ≤ length c.vars.items) }
    {
        match chain {
            Expr::Pi {
                mult,
                domain,
                codomain,
                span,
                ..
            } => {
                let ty = self.field_type(&context, name, level, *span, domain)?;
                let inner = with_name(self.elaborator.alloc, context, *mult, ty)?;
                self.fields(name, level, inner, codomain)
            }
            _ => Ok(context),
        }
    }
}
