//! The text types of columns.

ghost use Rattle.std.specs.Prelude.{◌≡◌, ◌++◌, Some, None, reverse, take, IfOk};
ghost use Rattle.qtt_implicit.specs.Columns.{columns_of, family_name, fields_of};
ghost use Rattle.qtt_implicit.specs.Nodes.{argument_row, node_tree};
ghost use Rattle.qtt_implicit.specs.Patterns.{argument_trees, column_type as type_of_column, end_of as end_of_tree, fields_on as columns_on, next_columns as columns_behind};
ghost use Rattle.qtt_implicit.specs.Signatures.{signature_of};
ghost use Rattle.qtt_implicit.specs.TextTypes.{arguments_in, open_list, type_tree};
ghost use Rattle.qtt_implicit.specs.Walk.{slots_of};

use crate::filling::applying::{behind_binders, empty_slots};
use crate::filling::columns::Columns;
use crate::filling::signature::Signature;
use crate::filling::text_type::{OpenSlots, TextType};
use crate::filling::trees::{Arguments, Node, placed};
use bumpalo::Bump;
use qtt_base::{GlobalId, MemoryError};

impl<'a> Columns<'a> {
    /// The type of the first column.
    pub fn column_type(self, arena: &'a Bump) -> Result<TextType<'a>, MemoryError>
        ensures { IfOk result (λ t. type_tree t ≡ type_of_column (columns_of self.entry)) }
    {
        match self {
            Columns::Untold => TextType::unknown(arena),
            Columns::Told { slots, chain } => match chain {
                Node::Pi { domain, .. } => Ok(slots.instance(domain)),
                _ => TextType::unknown(arena),
            },
        }
    }

    /// The columns behind the first one, whose pattern is this expression.
    pub fn next_columns(
        self,
        arena: &'a Bump,
        tree: &'a Node<'a>,
    ) -> Result<Columns<'a>, MemoryError>
        ensures { IfOk result (λ cs. columns_of cs ≡ columns_behind (node_tree tree.now)
            (columns_of self.entry)) }
    {
        match self {
            Columns::Untold => Ok(Columns::Untold),
            Columns::Told { slots, chain } => match chain {
                Node::Pi { codomain, .. } => Ok(Columns::Told {
                    slots: slots.with(arena, tree)?,
                    chain: codomain,
                }),
                _ => Ok(Columns::Untold),
            },
        }
    }
}

/// The end of a chain.
fn end_of<'a>(chain: &'a Node<'a>) -> &'a Node<'a>
    ensures { node_tree result.now ≡ end_of_tree (node_tree chain.now) }
{
    match chain {
        Node::Pi { codomain, .. } => end_of(codomain),
        _ => chain,
    }
}

/// The family of an application, or the name alone.
fn family(tree: &Node) -> Option<GlobalId>
    ensures { result ≡ family_name (node_tree tree.now) }
{
    match tree {
        Node::Apply { function, .. } => function.global(),
        _ => tree.global(),
    }
}

/// The slots of parameters, so many, in which the arguments of a family stand.
fn parameter_slots<'a>(
    arguments: &'a Arguments<'a>,
    arena: &'a Bump,
    text: TextType<'a>,
    params: u32,
    slots: OpenSlots<'a>,
) -> Result<OpenSlots<'a>, MemoryError>
    ensures { IfOk result (λ s. open_list s ≡ reverse (slots_of params (take params
        (argument_trees (arguments_in text.entry.shared (argument_row arguments.now)))))
        ++ open_list slots.entry) }
{
    match arguments {
        Arguments::End => empty_slots(slots, arena, params),
        Arguments::More { value, others, .. } => match params.checked_sub(1) {
            None => Ok(slots),
            Some(params) => {
                let slots = slots.with_text(arena, text.at(value))?;
                parameter_slots(others, arena, text, params, slots)
            }
        },
    }
}

impl<'a> Signature<'a> {
    /// The fields, where the arguments of the family are known.
    fn fields(
        self,
        arena: &'a Bump,
        text: TextType<'a>,
        arguments: &'a Arguments<'a>,
    ) -> Result<Columns<'a>, MemoryError>
        ensures { IfOk result (λ cs. columns_of cs ≡ fields_of (signature_of self.entry)
            (argument_trees (arguments_in text.entry.shared (argument_row arguments.now)))) }
    {
        let none = OpenSlots::none(arena)?;
        Ok(Columns::Told {
            slots: parameter_slots(arguments, arena, text, self.params, none)?,
            chain: behind_binders(self.ty, self.params),
        })
    }

    /// The fields of a constructor pattern on a column of this type.
    pub fn fields_on(self, arena: &'a Bump, ty: TextType<'a>) -> Result<Columns<'a>, MemoryError>
        ensures { IfOk result (λ cs. columns_of cs ≡ columns_on (Some (signature_of self.entry))
            (type_tree ty.entry)) }
    {
        match family(end_of(self.ty)) {
            None => Ok(Columns::Untold),
            Some(own) => match ty.application()? {
                None => match ty.global()? {
                    None => Ok(Columns::Untold),
                    Some(id) => {
                        if own.same(id) {
                            self.fields(arena, ty, placed(arena, Arguments::End)?)
                        } else {
                            Ok(Columns::Untold)
                        }
                    }
                },
                Some(found) => match found.function.global()? {
                    None => Ok(Columns::Untold),
                    Some(id) => {
                        if own.same(id) {
                            self.fields(arena, found.function, found.arguments)
                        } else {
                            Ok(Columns::Untold)
                        }
                    }
                },
            },
        }
    }
}
