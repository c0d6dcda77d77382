//! How much there is of a tree whose free local names stand for what fills slots.

ghost use Rattle.std.specs.Prelude.{◌≡◌, ◌+◌, IfOk};
ghost use Rattle.qtt_syntax.specs.declared.expr.Named.{Named};
ghost use Rattle.qtt_implicit.specs.Moving.{count, weighed_annotation, weighed_arguments, weighed_binders, weighed_statements, changed, changed_annotation, changed_arguments, changed_binders, changed_statements};
ghost use Rattle.qtt_implicit.specs.Nodes.{used_name, node_tree, annotation_tree, argument_row, binder_row, statement_row};
ghost use Rattle.qtt_implicit.specs.Slots.{IsSound, slot_list, stands, replacing, weight_of, weight_by};

use crate::filling::slots::{Rest, Slots};
use crate::filling::trees::{
    Annotation, Arguments, Binders, Node, Statements, Used, deeper, inside,
};
use crate::filling::weights::Weight;
use qtt_base::MemoryError;
use qtt_syntax::Target;

impl<'a> Slots<'a> {
    /// The weight of what a free local name stands for.
    pub fn weight_at(&self, index: u32, rest: Rest) -> Weight
        requires { IsSound self.now }
        ensures { (n : Named) → result ≡ weight_of (stands rest (slot_list self.now) index n) }
    {
        match self {
            Slots::End => match rest {
                Rest::Unknown => Weight::unknown(),
                Rest::Outer(_) => Weight::node(),
            },
            Slots::Empty(older) => match index.checked_sub(1) {
                None => Weight::unknown(),
                Some(index) => older.weight_at(index, rest),
            },
            Slots::Filled { weight, older, .. } => match index.checked_sub(1) {
                None => *weight,
                Some(index) => older.weight_at(index, rest),
            },
        }
    }
}

/// How many binders a tree stands behind, where it stands behind these too.
pub fn behind(binders: &Binders, depth: u32) -> Result<u32, MemoryError>
    ensures { IfOk result (λ d. d ≡ depth + count (binder_row binders.now)) }
{
    match binders {
        Binders::End => Ok(depth),
        Binders::Plain { others, .. } => behind(others, inside(depth)?),
        Binders::Typed { others, .. } => behind(others, inside(depth)?),
    }
}

fn weigh_name(used: Used, depth: u32, slots: &Slots, rest: Rest) -> Weight
    requires { IsSound slots.now }
    ensures { result ≡ weight_of ((replacing (stands rest (slot_list slots.now))).name depth
        (used_name used.entry)) }
{
    match used.target {
        Target::Unknown => Weight::unknown(),
        Target::Global(_) => Weight::node(),
        Target::Local(index) => match index.checked_sub(depth) {
            None => Weight::node(),
            Some(index) => slots.weight_at(index, rest),
        },
    }
}

/// The weight of a tree behind so many binders of its own.
#[cycle(weigh)]
#[tactic(auto, using(crate::proofs::Weights::both_weights))]
pub fn weigh(node: &Node, depth: u32, slots: &Slots, rest: Rest) -> Result<Weight, MemoryError>
    requires { IsSound slots.now }
    ensures { IfOk result (λ w. w ≡ weight_of (changed
        (replacing (stands rest (slot_list slots.now))) depth (node_tree node.now))) }
{
    match node {
        Node::Unknown(_) => Ok(Weight::unknown()),
        Node::Name(used) => Ok(weigh_name(*used, depth, slots, rest)),
        Node::Number { .. } | Node::Text { .. } | Node::Type { .. } | Node::Hole { .. } => {
            Ok(Weight::node())
        }
        Node::The { ty, value, .. } => {
            let ty = weigh(ty, depth, slots, rest)?;
            let value = weigh(value, depth, slots, rest)?;
            Ok(Weight::node().and(ty.and(value)))
        }
        Node::Apply {
            function,
            arguments,
            ..
        } => {
            let function = weigh(function, depth, slots, rest)?;
            let arguments = weigh_arguments(arguments, depth, slots, rest)?;
            Ok(Weight::node().and(function.and(arguments)))
        }
        Node::Pi {
            domain,
            codomain,
            ..
        } => {
            let domain = weigh(domain, depth, slots, rest)?;
            let codomain = weigh(codomain, inside(depth)?, slots, rest)?;
            Ok(Weight::node().and(domain.and(codomain)))
        }
        Node::Lambda { binders, body, .. } => {
            let row = weigh_binders(binders, depth, slots, rest)?;
            let body = weigh(body, behind(binders, depth)?, slots, rest)?;
            Ok(Weight::node().and(row.and(body)))
        }
        Node::Let {
            ty,
            value,
            body,
            ..
        } => {
            let ty = weigh_annotation(ty, depth, slots, rest)?;
            let value = weigh(value, depth, slots, rest)?;
            let body = weigh(body, inside(depth)?, slots, rest)?;
            Ok(Weight::node().and(ty.and(value.and(body))))
        }
        Node::Do { statements, .. } => {
            let statements = weigh_statements(statements, depth, slots, rest)?;
            Ok(Weight::node().and(statements))
        }
    }
}

#[cycle(weigh)]
fn weigh_annotation(
    ty: &Annotation,
    depth: u32,
    slots: &Slots,
    rest: Rest,
) -> Result<Weight, MemoryError>
    requires { IsSound slots.now }
    ensures { IfOk result (λ w. w ≡ weight_by (λ v. weighed_annotation v (changed_annotation
        (replacing (stands rest (slot_list slots.now))) depth (annotation_tree ty.now)))) }
{
    match ty {
        Annotation::Untyped => Ok(Weight::none()),
        Annotation::Typed(ty) => weigh(ty, depth, slots, rest),
    }
}

#[cycle(weigh)]
#[tactic(auto, using(crate::proofs::Weights::both_weights))]
fn weigh_arguments(
    arguments: &Arguments,
    depth: u32,
    slots: &Slots,
    rest: Rest,
) -> Result<Weight, MemoryError>
    requires { IsSound slots.now }
    ensures { IfOk result (λ w. w ≡ weight_by (λ v. weighed_arguments v (changed_arguments
        (replacing (stands rest (slot_list slots.now))) depth (argument_row arguments.now)))) }
{
    match arguments {
        Arguments::End => Ok(Weight::none()),
        Arguments::More { value, others, .. } => {
            let value = weigh(value, depth, slots, rest)?;
            let others = weigh_arguments(others, depth, slots, rest)?;
            Ok(value.and(others))
        }
    }
}

#[cycle(weigh)]
#[tactic(auto, using(crate::proofs::Weights::both_weights))]
fn weigh_binders(
    binders: &Binders,
    depth: u32,
    slots: &Slots,
    rest: Rest,
) -> Result<Weight, MemoryError>
    requires { IsSound slots.now }
    ensures { IfOk result (λ w. w ≡ weight_by (λ v. weighed_binders v (changed_binders
        (replacing (stands rest (slot_list slots.now))) depth (binder_row binders.now)))) }
{
    match binders {
        Binders::End => Ok(Weight::none()),
        Binders::Plain { others, .. } => {
            let others = weigh_binders(others, inside(depth)?, slots, rest)?;
            Ok(Weight::none().and(others))
        }
        Binders::Typed { ty, others, .. } => {
            let ty = weigh(ty, depth, slots, rest)?;
            let others = weigh_binders(others, inside(depth)?, slots, rest)?;
            Ok(ty.and(others))
        }
    }
}

#[cycle(weigh)]
#[tactic(auto, using(crate::proofs::Weights::both_weights))]
fn weigh_statements(
    statements: &Statements,
    depth: u32,
    slots: &Slots,
    rest: Rest,
) -> Result<Weight, MemoryError>
    requires { IsSound slots.now }
    ensures { IfOk result (λ w. w ≡ weight_by (λ v. weighed_statements v (changed_statements
        (replacing (stands rest (slot_list slots.now))) depth (statement_row statements.now)))) }
{
    match statements {
        Statements::End => Ok(Weight::none()),
        Statements::Bind { value, others, .. } => {
            let value = weigh(value, depth, slots, rest)?;
            let others = weigh_statements(others, deeper(depth, 1)?, slots, rest)?;
            Ok(value.and(others))
        }
        Statements::Let {
            ty,
            value,
            others,
            ..
        } => {
            let ty = weigh_annotation(ty, depth, slots, rest)?;
            let value = weigh(value, depth, slots, rest)?;
            let others = weigh_statements(others, deeper(depth, 1)?, slots, rest)?;
            Ok(ty.and(value).and(others))
        }
        Statements::Run { value, others, .. } => {
            let value = weigh(value, depth, slots, rest)?;
            let others = weigh_statements(others, depth, slots, rest)?;
            Ok(value.and(others))
        }
    }
}
