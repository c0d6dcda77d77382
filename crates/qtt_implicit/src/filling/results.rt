//! The text types of Prim, of a `let`, and of what an action gives.

ghost use Rattle.std.specs.Prelude.{◌≡◌, IfOk};
ghost use Rattle.qtt_syntax.specs.declared.expr.Target.TheVariants as target;
ghost use Rattle.qtt_implicit.specs.Nodes.{annotation_tree, node_tree};
ghost use Rattle.qtt_implicit.specs.TextTypes.{given_by, global_name, tree_in, type_tree};
ghost use Rattle.qtt_implicit.specs.Walk.{is_io as gives_result, let_type as type_of_let, prim_type, result_type as type_of_result};

use crate::filling::text_type::TextType;
use crate::filling::trees::{Annotation, Arguments, Node, Used, placed};
use bumpalo::Bump;
use qtt_base::{GlobalId, MemoryError, ModuleId, Name, Span};
use qtt_syntax::Target;

/// Whether it is IO or IO1.
fn is_io(id: GlobalId) -> bool
    ensures { result ≡ gives_result (target.Global id) }
{
    if id.module.0 == 0 && id.item == 6 {
        true
    } else {
        id.module.0 == 0 && id.item == 7
    }
}

impl<'a> TextType<'a> {
    /// The item of Prim with this number and this name.
    pub fn of_prim(
        arena: &'a Bump,
        number: u32,
        path: &'a Name,
    ) -> Result<TextType<'a>, MemoryError>
        ensures { IfOk result (λ t. type_tree t ≡ prim_type number path.now) }
    {
        let used = Used {
            path,
            target: Target::Global(GlobalId {
                module: ModuleId(0),
                item: number,
            }),
            span: Span {
                line: 0,
                col: 0,
                len: 0,
            },
        };
        TextType::here(arena, placed(arena, Node::Name(used))?)
    }

    /// The written type of a `let`, or that of its value.
    pub fn of_let(
        arena: &'a Bump,
        written: Annotation<'a>,
        value: TextType<'a>,
    ) -> Result<TextType<'a>, MemoryError>
        ensures { IfOk result (λ t. type_tree t ≡ type_of_let (annotation_tree written.entry)
            (type_tree value.entry)) }
    {
        match written {
            Annotation::Untyped => Ok(value),
            Annotation::Typed(ty) => TextType::here(arena, ty),
        }
    }

    /// What an action of this type gives, or what is unknown.
    pub fn result_type(self, arena: &'a Bump) -> Result<TextType<'a>, MemoryError>
        ensures { IfOk result (λ t. type_tree t ≡ type_of_result (type_tree self.entry)) }
    {
        match self.application()? {
            None => TextType::unknown(arena),
            Some(found) => match found.arguments {
                Arguments::End => TextType::unknown(arena),
                Arguments::More { value, others, .. } => match others {
                    Arguments::More { .. } => TextType::unknown(arena),
                    Arguments::End => found.function.given(arena, value),
                },
            },
        }
    }

    /// The only argument, which stands where this stands, if this is IO or IO1.
    fn given(self, arena: &'a Bump, value: &'a Node<'a>) -> Result<TextType<'a>, MemoryError>
        ensures { IfOk result (λ t. type_tree t ≡ given_by (global_name (type_tree self.entry))
            (tree_in self.entry.shared (node_tree value.now))) }
    {
        match self.global()? {
            None => TextType::unknown(arena),
            Some(id) => {
                if is_io(id) {
                    Ok(self.at(value))
                } else {
                    TextType::unknown(arena)
                }
            }
        }
    }
}
