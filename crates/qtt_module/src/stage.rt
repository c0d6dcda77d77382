//! What stands between two items of a module, and the items in turn.

ghost use Rattle.std.specs.Prelude.{◌≡◌, ◌∷◌, ◌+◌, suc, [], IfOk};
ghost use Rattle.qtt_term.specs.Entries.{entries, env};
ghost use Rattle.qtt_bidi.specs.Answers.{Gives};
ghost use Rattle.qtt_module.specs.Declarations.{Declaration as DeclarationTree};
ghost use Rattle.qtt_module.specs.Declaring.{all_declared, declared as declared_by, family_declared, grouped, signature_declared};
ghost use Rattle.qtt_module.specs.Module.{all_have_clauses, start};
ghost use Rattle.qtt_module.specs.Stages.{home, stage_of, PassesAll, PassesOne};

use crate::additions::{add_family, add_signature};
use crate::chains::labels;
use crate::declaration::Declaration;
use crate::given_bodies::add_body;
use crate::judge::Judge;
use crate::signed::{Signed, first_bare, mark, signed_as};
use qtt_base::MemoryError;
use qtt_holes::Hole;
use qtt_rules::{Detail, ElabError};
use qtt_syntax::{Clause, FamilyDecl, SignatureDecl};
use qtt_term::{Converter, Globals, Rule};
use std::alloc::Global;

/// What stands between two items: what was declared so far, the number of the next item, the
/// signatures that were judged, and the holes, in the order of the text.
#[derive(Drop)]
pub struct Stage {
    pub globals: Globals,
    pub next: u32,
    pub signed: Vec<Signed>,
    pub holes: Vec<Hole>,
}

impl Stage {
    /// Before the first item of a module, over what its imports and Prim declare.
    pub fn new(alloc: Global, globals: Globals) -> Stage
        ensures { stage_of result ≡ start (entries globals) }
    {
        Stage {
            globals,
            next: 0,
            signed: Vec::new(alloc),
            holes: Vec::new(alloc),
        }
    }

    /// A family, with its constructors behind it.
    fn family<C: Converter>(
        &mut self,
        judge: &Judge<'_, C>,
        declared: &FamilyDecl,
    ) -> Result<(), ElabError>
        ensures { PassesOne (home judge.now) judge.now.budget (stage_of self.old)
            (family_declared declared.now) (stage_of self.new) result }
    {
        let id = judge.item(self.next);
        let next = next_behind(self.next, declared.constructors.len())?;
        add_family(
            judge.alloc,
            judge.converter,
            judge.budget,
            &mut self.globals,
            judge.home,
            id,
            declared,
        )?;
        self.next = next;
        Ok(())
    }

    /// A signature.
    fn signature<C: Converter>(
        &mut self,
        judge: &Judge<'_, C>,
        declared: &SignatureDecl,
    ) -> Result<(), ElabError>
        ensures { PassesOne (home judge.now) judge.now.budget (stage_of self.old)
            (signature_declared declared.now) (stage_of self.new) result }
    {
        let id = judge.item(self.next);
        let next = next_behind(self.next, 0)?;
        let signed = Signed {
            id,
            name: declared.name.copy()?,
            place: declared.name_span,
            labels: labels(judge.alloc, &declared.ty)?,
            may_miss: declared.partial,
            has_clauses: false,
        };
        add_signature(
            judge.alloc,
            judge.converter,
            judge.budget,
            &mut self.globals,
            judge.home,
            id,
            declared,
        )?;
        self.next = next;
        self.signed.push(signed)?;
        Ok(())
    }

    /// A definition's clauses, whose signature stands earlier. A name without one, which the
    /// names of a text rule out, is answered as want of memory.
    fn group<C: Converter>(
        &mut self,
        judge: &Judge<'_, C>,
        clauses: &[Clause],
    ) -> Result<(), ElabError>
        ensures { (d : DeclarationTree) → grouped clauses.now ≡ d ∷ [] →
            PassesOne (home judge.now) judge.now.budget (stage_of self.old) d
            (stage_of self.new) result }
    {
        let [first, ..] = clauses else {
            return Err(ElabError::Memory);
        };
        let Some(signed) = signed_as(&self.signed, &first.name) else {
            return Err(ElabError::Memory);
        };
        let mut holes = add_body(
            judge.alloc,
            judge.converter,
            judge.budget,
            &mut self.globals,
            signed,
            clauses,
        )?;
        mark(&mut self.signed, &first.name);
        self.holes.append(&mut holes)?;
        Ok(())
    }

    /// One declaration.
    fn declare<C: Converter>(
        &mut self,
        judge: &Judge<'_, C>,
        declaration: &Declaration,
    ) -> Result<(), ElabError>
        ensures { (d : DeclarationTree) → declared_by declaration.now ≡ d ∷ [] →
            PassesOne (home judge.now) judge.now.budget (stage_of self.old) d
            (stage_of self.new) result }
    {
        match declaration {
            Declaration::Family(declared) => self.family(judge, declared),
            Declaration::Signature(declared) => self.signature(judge, declared),
            Declaration::Group(group) => self.group(judge, &group.clauses),
        }
    }

    /// Each signature has clauses.
    fn all_have_clauses(&self, budget: u64) -> Result<(), ElabError>
        ensures { Gives (env (entries self.now.globals)) budget
            (all_have_clauses (stage_of self.now)) (λ u. stage_of self.now) result }
    {
        let Some(bare) = first_bare(&self.signed) else {
            return Ok(());
        };
        let kept = Detail::NoClauses {
            name: bare.name.copy()?,
        };
        Err(ElabError::Refused(kept, bare.place, Rule::Clauses, 18))
    }

    /// The items of a module in turn. Behind the last one each signature has clauses. Where an
    /// item is refused, what stands is what its refusal's terms speak of.
    pub fn declare_all<C: Converter>(
        &mut self,
        judge: &Judge<'_, C>,
        declarations: &[Declaration],
    ) -> Result<(), ElabError>
        ensures { PassesAll (home judge.now) judge.now.budget (stage_of self.old)
            (all_declared declarations.now) (stage_of self.new) result }
    {
        for declaration in declarations {
            self.declare(judge, declaration)?;
        }
        self.all_have_clauses(judge.budget)
    }
}

/// The number of the item behind one and so many more.
fn next_behind(number: u32, more: usize) -> Result<u32, MemoryError>
    ensures { IfOk result (λ next. next ≡ suc (more + number)) }
{
    let Ok(more) = u32::try_from(more) else {
        return Err(MemoryError);
    };
    let Some(last) = number.checked_add(more) else {
        return Err(MemoryError);
    };
    match last.checked_add(1) {
        Some(next) => Ok(next),
        None => Err(MemoryError),
    }
}
