//! Text types: what they are made of, and what they give.

ghost use Rattle.std.specs.Prelude.{◌≡◌, [], ◌∷◌, IfOk};
ghost use Rattle.qtt_syntax.specs.Tree.{Arguments};
ghost use Rattle.qtt_implicit.specs.Moving.{shifted, unknown as unknown_tree};
ghost use Rattle.qtt_implicit.specs.Matching.{codomain as codomain_of, instance as instance_of};
ghost use Rattle.qtt_implicit.specs.Nodes.{node_tree};
ghost use Rattle.qtt_implicit.specs.Slots.{Resolves, moved_rest};
ghost use Rattle.qtt_implicit.specs.TextTypes.{Applies, arguments_in, global_name, open_list, tree_in, type_tree};

use crate::filling::changing::moved;
use crate::filling::parts::Application;
use crate::filling::slots::{Rest, Shared, Slots};
use crate::filling::text_type::{OpenSlots, TextType};
use crate::filling::trees::{Node, deeper, placed};
use bumpalo::Bump;
use qtt_base::{GlobalId, MemoryError, Span};
use qtt_syntax::Target;

impl<'a> Node<'a> {
    /// What a name stands for, if it is no local one.
    pub fn global(&self) -> Option<GlobalId>
        ensures { result ≡ global_name (node_tree self.now) }
    {
        match self {
            Node::Name(used) => match used.target {
                Target::Global(id) => Some(id),
                Target::Local(_) | Target::Unknown => None,
            },
            _ => None,
        }
    }
}

impl<'a> TextType<'a> {
    /// What is unknown.
    pub fn unknown(arena: &'a Bump) -> Result<TextType<'a>, MemoryError>
        ensures { IfOk result (λ t. type_tree t ≡ unknown_tree) }
    {
        let tree = placed(
            arena,
            Node::Unknown(Span {
                line: 0,
                col: 0,
                len: 0,
            }),
        )?;
        TextType::here(arena, tree)
    }

    /// A tree that stands here.
    pub fn here(arena: &'a Bump, tree: &'a Node<'a>) -> Result<TextType<'a>, MemoryError>
        ensures { IfOk result (λ t. type_tree t ≡ node_tree tree.now) }
    {
        Ok(TextType {
            shared: Shared {
                tree,
                slots: placed(arena, Slots::End)?,
                rest: Rest::Outer(0),
                moved: 0,
            },
        })
    }

    /// The same behind so many binders more.
    pub fn moved(self, by: u32) -> Result<TextType<'a>, MemoryError>
        ensures { IfOk result (λ t. type_tree t ≡ shifted by (type_tree self.entry)) }
    {
        Ok(TextType {
            shared: Shared {
                tree: self.shared.tree,
                slots: self.shared.slots,
                rest: self.shared.rest,
                moved: deeper(self.shared.moved, by)?,
            },
        })
    }

    /// Another tree with the same slots.
    pub fn at(self, tree: &'a Node<'a>) -> TextType<'a>
        ensures tree { type_tree result ≡ tree_in self.entry.shared (node_tree tree.now) }
        ensures arguments { (xs : Arguments) → arguments_in result.shared xs ≡ arguments_in
            self.entry.shared xs }
    {
        TextType {
            shared: Shared {
                tree,
                slots: self.shared.slots,
                rest: self.shared.rest,
                moved: self.shared.moved,
            },
        }
    }

    /// The same, where its tree is no name of a filled slot.
    fn resolved(self) -> Result<TextType<'a>, MemoryError>
        ensures { IfOk result (λ t. Resolves (type_tree self.entry) (Some t.shared)) }
    {
        Ok(TextType {
            shared: self.shared.resolved()?,
        })
    }

    /// What a name stands for, if it is no local one.
    pub fn global(self) -> Result<Option<GlobalId>, MemoryError>
        ensures { IfOk result (λ id. id ≡ global_name (type_tree self.entry)) }
    {
        Ok(self.resolved()?.shared.tree.global())
    }

    /// The application that it is.
    pub fn application(self) -> Result<Option<Application<'a>>, MemoryError>
        ensures { IfOk result (Applies (type_tree self.entry)) }
    {
        let text = self.resolved()?;
        match text.shared.tree {
            Node::Apply {
                function,
                arguments,
                span,
            } => Ok(Some(Application {
                function: text.at(function),
                arguments,
                span: *span,
            })),
            _ => Ok(None),
        }
    }

    /// The type of an application to this argument, or what is unknown.
    pub fn codomain(
        self,
        arena: &'a Bump,
        argument: &'a Node<'a>,
    ) -> Result<TextType<'a>, MemoryError>
        ensures { IfOk result (λ t. type_tree t ≡ codomain_of (type_tree self.entry)
            (node_tree argument.now)) }
    {
        let text = self.resolved()?;
        match text.shared.tree {
            Node::Pi { codomain, .. } => {
                let older = OpenSlots {
                    slots: moved(text.shared.slots, arena, text.shared.moved)?,
                };
                let slots = older.with(arena, argument)?;
                Ok(TextType {
                    shared: Shared {
                        tree: codomain,
                        slots: slots.slots,
                        rest: text.shared.rest.moved(text.shared.moved)?,
                        moved: 0,
                    },
                })
            }
            _ => TextType::unknown(arena),
        }
    }
}

impl Rest {
    /// The same behind so many binders more.
    fn moved(self, by: u32) -> Result<Rest, MemoryError>
        ensures { IfOk result (λ r. r ≡ moved_rest by self) }
    {
        match self {
            Rest::Unknown => Ok(Rest::Unknown),
            Rest::Outer(outer) => Ok(Rest::Outer(deeper(outer, by)?)),
        }
    }
}

impl<'a> OpenSlots<'a> {
    /// No slot.
    pub fn none(arena: &'a Bump) -> Result<OpenSlots<'a>, MemoryError>
        ensures { IfOk result (λ s. open_list s ≡ []) }
    {
        Ok(OpenSlots {
            slots: placed(arena, Slots::End)?,
        })
    }

    /// One more slot, in which an expression stands.
    pub fn with(self, arena: &'a Bump, tree: &'a Node<'a>) -> Result<OpenSlots<'a>, MemoryError>
        ensures { IfOk result (λ s. open_list s ≡ Some (node_tree tree.now)
            ∷ open_list self.entry) }
    {
        self.with_text(arena, TextType::here(arena, tree)?)
    }

    /// One more slot, in which what a text type stands for stands.
    pub fn with_text(
        self,
        arena: &'a Bump,
        text: TextType<'a>,
    ) -> Result<OpenSlots<'a>, MemoryError>
        ensures { IfOk result (λ s. open_list s ≡ Some (type_tree text.entry)
            ∷ open_list self.entry) }
    {
        let text = text.shared;
        let weight = text.weight()?;
        Ok(OpenSlots {
            slots: placed(
                arena,
                Slots::Filled {
                    text,
                    weight,
                    older: self.slots,
                },
            )?,
        })
    }

    /// One more slot, which is not filled.
    pub fn with_empty(self, arena: &'a Bump) -> Result<OpenSlots<'a>, MemoryError>
        ensures { IfOk result (λ s. open_list s ≡ None ∷ open_list self.entry) }
    {
        Ok(OpenSlots {
            slots: placed(arena, Slots::Empty(self.slots))?,
        })
    }

    /// A type of the signature where its name is used.
    pub fn instance(self, tree: &'a Node<'a>) -> TextType<'a>
        ensures { type_tree result ≡ instance_of (open_list self.entry) (node_tree tree.now) }
    {
        TextType {
            shared: Shared {
                tree,
                slots: self.slots,
                rest: Rest::Unknown,
                moved: 0,
            },
        }
    }
}
