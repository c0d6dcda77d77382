//! Applications of names with a signature, and of others.

ghost use Rattle.std.specs.Prelude.{◌≡◌, ◌+◌, ◌++◌, length, map, take, IfOk};
ghost use Rattle.qtt_syntax.specs.Tree.Tree.{name};
ghost use Rattle.qtt_implicit.specs.Judging.{AreJudged, judged_pair};
ghost use Rattle.qtt_implicit.specs.KnownItems.{known_of};
ghost use Rattle.qtt_implicit.specs.Meeting.{Meets};
ghost use Rattle.qtt_implicit.specs.Nodes.{node_tree, used_name};
ghost use Rattle.qtt_implicit.specs.Signatures.{signature_of};
ghost use Rattle.qtt_implicit.specs.Solving.{names_in_braces, solved};
ghost use Rattle.qtt_implicit.specs.TextTypes.{given_list, local_types, open_list, type_tree, walked_of};
ghost use Rattle.qtt_implicit.specs.Walk.{applied as applied_tree, applied_local as local_applied, applied_name as name_applied, application as application_of, at_slots as tree_at_slots, behind_binders as tree_behind, brace_slots, given_argument, given_to as slots_and_type, in_braces, not_in_braces, open_slots as slots_in_front, plainly_applied as plain_tree, walked};

use crate::filling::applying::{
    application, behind_binders, behind_slots, braced_slots, count_braced, empty_slots, filled_row,
    given_row, inserted, written_row,
};
use crate::filling::changing::turned;
use crate::filling::givens::{Judged, codomains, given_to};
use crate::filling::known::Known;
use crate::filling::left::Left;
use crate::filling::locals::type_at;
use crate::filling::parts::{Locals, Walked};
use crate::filling::signature::{Call, Signature};
use crate::filling::stop::Stop;
use crate::filling::text_type::{OpenSlots, TextType};
use crate::filling::trees::{Node, placed};
use bumpalo::Bump;
use qtt_base::MemoryError;
use qtt_syntax::Target;

impl<'a> Signature<'a> {
    /// The slots, of which the expressions in braces, so many, fill the first ones.
    fn open_slots(
        self,
        arena: &'a Bump,
        call: Call<'a>,
        found: u32,
    ) -> Result<OpenSlots<'a>, MemoryError>
        requires { found ≡ length (in_braces (given_list call.givens.now)) }
        ensures { IfOk result (λ s. open_list s ≡ slots_in_front (signature_of self.entry)
            (in_braces (given_list call.entry.givens.now))) }
    {
        let none = OpenSlots::none(arena)?;
        let params = empty_slots(none, arena, self.params)?;
        let braced = braced_slots(call.givens, arena, params)?;
        empty_slots(braced, arena, self.braces.saturating_sub(found))
    }

    /// The slots behind the arguments, and the text type.
    fn judged(self, arena: &'a Bump, call: Call<'a>, found: u32) -> Result<Judged<'a>, MemoryError>
        requires { found ≡ length (in_braces (given_list call.givens.now)) }
        ensures { IfOk result (λ j. AreJudged j (slots_and_type
            (slots_in_front (signature_of self.entry)
            (in_braces (given_list call.entry.givens.now)))
            (tree_behind (self.entry.params + self.entry.braces) (node_tree self.entry.ty.now))
            (not_in_braces (given_list call.entry.givens.now)))) }
    {
        let slots = self.open_slots(arena, call, found)?;
        let chain = behind_binders(behind_binders(self.ty, self.params), self.braces);
        given_to(call.givens, arena, chain, slots)
    }

    /// The slots behind the parameters, in the order of their binders.
    fn brace_row(self, arena: &'a Bump, slots: OpenSlots<'a>) -> Result<OpenSlots<'a>, MemoryError>
        ensures { IfOk result (λ s. take self.entry.braces (open_list s) ≡ brace_slots
            (signature_of self.entry) (open_list slots.entry)) }
    {
        let none = OpenSlots::none(arena)?;
        let turned = OpenSlots {
            slots: turned(slots.slots, arena, none.slots)?,
        };
        Ok(OpenSlots {
            slots: behind_slots(turned.slots, self.params),
        })
    }

    /// The application, whose arguments in braces stand in these slots.
    fn filled(
        self,
        arena: &'a Bump,
        call: Call<'a>,
        judged: Judged<'a>,
        slots: OpenSlots<'a>,
        found: u32,
    ) -> Result<Walked<'a>, MemoryError>
        ensures { IfOk result (λ w. walked_of w ≡ walked (application_of
            (name (used_name call.entry.name)) (solved call.entry.name.span found
            (names_in_braces (signature_of self.entry))
            (take self.entry.braces (open_list slots.entry)) ++ map given_argument
            (not_in_braces (given_list call.entry.givens.now))) call.entry.span)
            (type_tree judged.entry.ty)) }
    {
        let chain = behind_binders(self.ty, self.params);
        let place = call.name.span;
        let written = written_row(call.givens, arena)?;
        let row = filled_row(
            chain,
            arena,
            self.braces,
            slots.slots,
            found,
            place,
            written,
        )?;
        let name = placed(arena, Node::Name(call.name))?;
        Ok(Walked {
            tree: application(name, arena, row, call.span)?,
            ty: judged.ty,
        })
    }

    /// The application, where its slots are filled and its text type is known.
    fn at_slots(
        self,
        arena: &'a Bump,
        call: Call<'a>,
        judged: Judged<'a>,
        found: u32,
        left: &mut Left,
    ) -> Result<Walked<'a>, Stop<'a>>
        requires { found ≡ length (in_braces (given_list call.givens.now)) }
        ensures { Meets walked_of result (tree_at_slots (signature_of self.entry)
            (used_name call.entry.name) (given_list call.entry.givens.now) call.entry.span
            (judged_pair judged.entry) left.old.nodes) left.new.nodes }
    {
        let slots = self.brace_row(arena, judged.slots)?;
        let chain = behind_binders(self.ty, self.params);
        match inserted(chain, self.braces, slots.slots, found) {
            Err(name) => Err(Stop::Unsolved {
                name,
                span: call.name.span,
            }),
            Ok(nodes) => match left.put(nodes) {
                Err(stop) => Err(stop),
                Ok(()) => Ok(self.filled(arena, call, judged, slots, found)?),
            },
        }
    }

    /// An application of a name with this signature.
    pub fn applied(
        self,
        arena: &'a Bump,
        call: Call<'a>,
        left: &mut Left,
    ) -> Result<Walked<'a>, Stop<'a>>
        ensures { Meets walked_of result (applied_tree (signature_of self.entry)
            (used_name call.entry.name) (given_list call.entry.givens.now) call.entry.span
            left.old.nodes) left.new.nodes }
    {
        let found = count_braced(call.givens)?;
        if found > self.braces {
            return Err(Stop::Braces {
                most: self.braces,
                found,
                span: call.name.span,
            });
        }
        let judged = self.judged(arena, call, found)?;
        self.at_slots(arena, call, judged, found, left)
    }
}

impl<'a> Call<'a> {
    /// An application of what has no signature.
    pub fn plainly(self, arena: &'a Bump, ty: TextType<'a>) -> Result<Walked<'a>, MemoryError>
        ensures { IfOk result (λ w. walked_of w ≡ plain_tree (name (used_name self.entry.name))
            (type_tree ty.entry) (given_list self.entry.givens.now) self.entry.span) }
    {
        let name = placed(arena, Node::Name(self.name))?;
        let row = given_row(self.givens, arena)?;
        Ok(Walked {
            tree: application(name, arena, row, self.span)?,
            ty: codomains(self.givens, arena, ty)?,
        })
    }

    /// An application of a local name, which takes no braces.
    pub fn of_local(
        self,
        arena: &'a Bump,
        ty: TextType<'a>,
        left: &Left,
    ) -> Result<Walked<'a>, Stop<'a>>
        ensures { Meets walked_of result (local_applied (type_tree ty.entry)
            (used_name self.entry.name) (given_list self.entry.givens.now) self.entry.span
            left.now.nodes) left.now.nodes }
    {
        let found = count_braced(self.givens)?;
        if found > 0 {
            Err(Stop::Braces {
                most: 0,
                found,
                span: self.name.span,
            })
        } else {
            Ok(self.plainly(arena, ty)?)
        }
    }
}

/// An application of a used name.
pub fn applied_name<'a>(
    known: &Known<'a>,
    arena: &'a Bump,
    locals: &'a Locals<'a>,
    call: Call<'a>,
    left: &mut Left,
) -> Result<Walked<'a>, Stop<'a>>
    ensures { Meets walked_of result (name_applied (known_of known.now)
        (local_types locals.now) call.entry.name.target (used_name call.entry.name)
        (given_list call.entry.givens.now) call.entry.span left.old.nodes) left.new.nodes }
{
    match call.name.target {
        Target::Unknown => Ok(call.plainly(arena, TextType::unknown(arena)?)?),
        Target::Local(index) => call.of_local(arena, type_at(locals, arena, index)?, left),
        Target::Global(id) => match known.signature(id) {
            None => Ok(call.plainly(arena, TextType::unknown(arena)?)?),
            Some(sig) => sig.applied(arena, call, left),
        },
    }
}
