//! Families and signatures, put into the environment.

ghost use Rattle.std.specs.Prelude.{◌≡◌, [], None, IfErr, IfOk, OnErr, OnOk, map};
ghost use Rattle.qtt_syntax.specs.View.{tree_of, con_of, param_of};
ghost use Rattle.qtt_term.specs.Entries.{entries, env, with_family, with_definition};
ghost use Rattle.qtt_term.specs.Globals.{families as families_of};
ghost use Rattle.qtt_term.specs.Items.{constructor_entry, definition_entry, family_entry, family_id, with_constructors};
ghost use Rattle.qtt_term.specs.Keyed.{with_id};
ghost use Rattle.qtt_rules.specs.declared.errors.ElabError.TheVariants.{Memory};
ghost use Rattle.qtt_bidi.specs.Answers.{Gives};
ghost use Rattle.qtt_module.specs.Additions.{Left, Puts};
ghost use Rattle.qtt_module.specs.Families.{family as family_asks, family_with, signature as signature_asks};
ghost use Rattle.qtt_module.specs.FamilyParts.{head as head_asks, completed};
ghost use Rattle.qtt_module.specs.FamilyView.{head_of};

use crate::declarer::Declarer;
use crate::heads::FamilyHead;
use qtt_base::{GlobalId, Name};
use qtt_bidi::Elaborator;
use qtt_rules::ElabError;
use qtt_syntax::{ConDecl, FamilyDecl, SignatureDecl};
use qtt_term::{Constructor, Converter, Definition, Family, Globals};
use std::alloc::Global;

/// A family without its constructors, over the environment before it.
fn head_over<C: Converter>(
    alloc: Global,
    converter: &C,
    budget: u64,
    globals: &Globals,
    home: &Name,
    id: GlobalId,
    declared: &FamilyDecl,
) -> Result<FamilyHead, ElabError>
    ensures { Gives (env (entries globals.now)) budget
        (head_asks (entries globals.now) id home.now declared.now.name
        (map param_of declared.now.params.items) (tree_of declared.now.ty)) (head_of home.now)
        result }
{
    let elaborator = Elaborator {
        alloc,
        converter,
        budget,
        globals,
    };
    let declarer = Declarer { elaborator, home };
    declarer.family_head(id, &declared.name, &declared.params, &declared.ty)
}

/// A family with its constructors, over the environment in which it stands without them.
fn family_over<C: Converter>(
    alloc: Global,
    converter: &C,
    budget: u64,
    globals: &Globals,
    home: &Name,
    head: &FamilyHead,
    declared: &[ConDecl],
) -> Result<Family, ElabError>
    ensures gives { Gives (env (entries globals.now)) budget
        (completed (entries globals.now) (head_of home.now head.now) (map con_of declared.now))
        family_entry result }
    ensures whole { IfOk result (λ f. family_entry f ≡
        family_with (head_of home.now head.now) (map constructor_entry f.constructors.items)) }
{
    let elaborator = Elaborator {
        alloc,
        converter,
        budget,
        globals,
    };
    let declarer = Declarer { elaborator, home };
    declarer.family(head, declared)
}

/// A definition without a body, over the environment before it.
fn signature_over<C: Converter>(
    alloc: Global,
    converter: &C,
    budget: u64,
    globals: &Globals,
    home: &Name,
    id: GlobalId,
    declared: &SignatureDecl,
) -> Result<Definition, ElabError>
    ensures gives { Gives (env (entries globals.now)) budget
        (signature_asks (entries globals.now) id home.now declared.now.name declared.now.mult
        (tree_of declared.now.ty)) definition_entry result }
    ensures bare { IfOk result (λ d. d.body ≡ None) }
{
    let elaborator = Elaborator {
        alloc,
        converter,
        budget,
        globals,
    };
    let declarer = Declarer { elaborator, home };
    declarer.signature(id, &declared.name, declared.mult, &declared.ty)
}

/// Puts a family into the environment without its constructors. A module's ids are new there.
fn put_bare(
    alloc: Global,
    globals: &mut Globals,
    home: &Name,
    head: &FamilyHead,
) -> Result<(), ElabError>
    ensures ok { OnOk result (entries globals.new ≡
        with_family (family_with (head_of home.now head.now) []) (entries globals.old)) }
    ensures absent { OnOk result (with_id family_id head.now.id (families_of globals.old) ≡ None) }
    ensures err { OnErr result (entries globals.new ≡ entries globals.old) }
    ensures memory { IfErr result (λ e. e ≡ Memory) }
{
    let family = head.family(alloc, home, Vec::new(alloc))?;
    if !globals.can_add(&family) {
        return Err(ElabError::Memory);
    }
    globals.add_family(alloc, family)?;
    Ok(())
}

/// Gives its constructors to a family that stands without them. Their ids are new there, and each
/// result has one term for each index.
fn give_constructors(
    alloc: Global,
    globals: &mut Globals,
    family: GlobalId,
    constructors: Vec<Constructor>,
) -> Result<(), ElabError>
    ensures ok { OnOk result (entries globals.new ≡ record {
      families = with_constructors family (map constructor_entry constructors.items)
          (entries globals.old).families;
      definitions = (entries globals.old).definitions;
    }) }
    ensures err { OnErr result (entries globals.new ≡ entries globals.old) }
    ensures memory { IfErr result (λ e. e ≡ Memory) }
{
    if !globals.can_give(family, &constructors) {
        return Err(ElabError::Memory);
    }
    globals.set_constructors(alloc, family, constructors)?;
    Ok(())
}

/// Judges a family of a module, and puts it into the environment. Where a constructor is refused,
/// the family stands there without any.
pub fn add_family<C: Converter>(
    alloc: Global,
    converter: &C,
    budget: u64,
    globals: &mut Globals,
    home: &Name,
    id: GlobalId,
    declared: &FamilyDecl,
) -> Result<(), ElabError>
    ensures gives { Puts with_family (entries globals.old) (entries globals.new) budget
        (family_asks (entries globals.old) id home.now declared.now.name
        (map param_of declared.now.params.items) (tree_of declared.now.ty)
        (map con_of declared.now.constructors.items)) result }
    ensures left { Left (entries globals.old) (entries globals.new) budget
        (head_asks (entries globals.old) id home.now declared.now.name
        (map param_of declared.now.params.items) (tree_of declared.now.ty)) result }
{
    let head = head_over(alloc, converter, budget, globals, home, id, declared)?;
    put_bare(alloc, globals, home, &head)?;
    let constructors = &declared.constructors;
    let family = family_over(alloc, converter, budget, globals, home, &head, constructors)?;
    let Family { constructors, .. } = family;
    give_constructors(alloc, globals, head.id, constructors)
}

/// Judges a signature of a module, and puts its definition into the environment, where its id is
/// new.
pub fn add_signature<C: Converter>(
    alloc: Global,
    converter: &C,
    budget: u64,
    globals: &mut Globals,
    home: &Name,
    id: GlobalId,
    declared: &SignatureDecl,
) -> Result<(), ElabError>
    ensures gives { Puts with_definition (entries globals.old) (entries globals.new) budget
        (signature_asks (entries globals.old) id home.now declared.now.name declared.now.mult
        (tree_of declared.now.ty)) result }
    ensures err { OnErr result (entries globals.new ≡ entries globals.old) }
{
    let definition = signature_over(alloc, converter, budget, globals, home, id, declared)?;
    let Definition {
        id,
        name,
        mult,
        ty,
        ..
    } = definition;
    if !globals.is_absent(id) {
        return Err(ElabError::Memory);
    }
    globals.add_signature(id, name, mult, ty)?;
    Ok(())
}
