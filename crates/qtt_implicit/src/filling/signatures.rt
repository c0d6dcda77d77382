//! Signatures of items, as the chains of binders that are exported.

ghost use Rattle.std.specs.Prelude.{◌≡◌, length, IfOk};
ghost use Rattle.qtt_implicit.specs.Nodes.{node_tree};
ghost use Rattle.qtt_implicit.specs.Filled.{behind_params as params_before, brace_count as braces_before};
ghost use Rattle.qtt_implicit.specs.Items.{param_row};

use super::trees::{Node, placed};
use crate::forgetting::numbers::more;
use bumpalo::Bump;
use qtt_base::MemoryError;
use qtt_syntax::{ConDecl, Mark, Param};

/// Parameters of a family, with their types filled.
#[derive(Clone, Copy)]
pub(crate) enum ParamRow<'a> {
    End,
    More {
        source: &'a Param,
        ty: &'a Node<'a>,
        others: &'a ParamRow<'a>,
    },
}

/// Constructors of a family, with their types filled.
#[derive(Clone, Copy)]
pub(crate) enum ConRow<'a> {
    End,
    More {
        source: &'a ConDecl,
        ty: &'a Node<'a>,
        others: &'a ConRow<'a>,
    },
}

/// A chain behind a family's parameters.
pub(crate) fn behind_params<'a>(
    arena: &'a Bump,
    params: &ParamRow<'a>,
    chain: &'a Node<'a>,
) -> Result<&'a Node<'a>, MemoryError>
    ensures { IfOk result (λ node. node_tree node.now ≡
        params_before (param_row params.now) (node_tree chain.now)) }
{
    match *params {
        ParamRow::End => Ok(chain),
        ParamRow::More { source, ty, others } => {
            let codomain = behind_params(arena, others, chain)?;
            let node = Node::Pi {
                mark: Mark::Written,
                mult: source.mult,
                name: &source.name,
                domain: ty,
                codomain,
                span: source.span,
            };
            placed(arena, node)
        }
    }
}

/// How many parameters there are.
pub(crate) fn param_count(params: &ParamRow<'_>) -> Result<u32, MemoryError>
    ensures { IfOk result (λ n. n ≡ length (param_row params.now)) }
{
    match params {
        ParamRow::End => Ok(0),
        ParamRow::More { others, .. } => more(param_count(others)?, 1),
    }
}

/// How many binders in braces stand in front.
pub(crate) fn brace_count(chain: &Node<'_>) -> Result<u32, MemoryError>
    ensures { IfOk result (λ n. n ≡ braces_before (node_tree chain.now)) }
{
    match chain {
        Node::Pi {
            mark: Mark::Braced,
            codomain,
            ..
        } => more(brace_count(codomain)?, 1),
        _ => Ok(0),
    }
}
