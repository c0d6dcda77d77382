//! The judgement of a module's text.

ghost use Rattle.std.specs.Prelude.{◌≡◌, IfOk, List, map, option_map, codes};
ghost use Rattle.qtt_syntax.specs.View.{item_of, module_of};
ghost use Rattle.qtt_names.specs.Exports.{exports_of, sig_of};
ghost use Rattle.qtt_term.specs.Entries.{entries};
ghost use Rattle.qtt_module.specs.Answer.{Gives, WhereRefused};
ghost use Rattle.qtt_module.specs.Declarations.{Declaration as DeclarationTree, declarations as declared_by};
ghost use Rattle.qtt_module.specs.GivenBodies.{signed_of};
ghost use Rattle.qtt_module.specs.Module.{checked as checked_at, in_turn, signed_as as signed_by, start};
ghost use Rattle.qtt_module.specs.Refused.{judged};
ghost use Rattle.qtt_module.specs.Stages.{home, stage_of};
ghost use Rattle.qtt_module.specs.Text.{accepted, home_of, judged_text, standing_in_turn};
ghost use Rattle.qtt_module.specs.TextCalls.{DeclaresText, RefusesText, accepted_of};

use crate::checked::Checked;
use crate::declarations::declarations;
use crate::errors::ModuleError;
use crate::exports::exports;
use crate::judge::Judge;
use crate::laws::texts_are_judged;
use crate::prepared::prepared;
use crate::refusals::told;
use crate::signed::{Signed, signed_as};
use crate::stage::Stage;
use qtt_base::{GlobalId, MemoryError, ModuleId, Name};
use qtt_implicit::FilledText;
use qtt_names::{Exports, Sig};
use qtt_syntax::{Item, ModuleText};
use qtt_term::{Converter, Globals};
use std::alloc::Global;

/// The items of a module in turn, over what its imports and Prim declare.
fn items_in_turn<C: Converter>(
    judge: &Judge<'_, C>,
    globals: Globals,
    items: Vec<Item>,
) -> Result<Stage, ModuleError>
    ensures { (ds : List DeclarationTree) → ds ≡ declared_by (map item_of items.items) →
        Gives stage_of result (judged judge.now.home.now judge.now.budget
        (standing_in_turn (home judge.now) judge.now.budget (start (entries globals)) ds)
        (in_turn (home judge.now) judge.now.budget (start (entries globals)) ds)) }
{
    let declarations = declarations(judge.alloc, items)?;
    let mut stage = Stage::new(judge.alloc, globals);
    match stage.declare_all(judge, &declarations) {
        Ok(()) => Ok(stage),
        Err(error) => {
            let Stage { globals, .. } = stage;
            Err(told(judge.alloc, judge.home, globals, error))
        }
    }
}

/// The definition `main` of a module.
fn main_of(alloc: Global, signed: &[Signed]) -> Result<Option<GlobalId>, MemoryError>
    ensures { IfOk result (λ main. main ≡
        option_map (λ x. x.id) (signed_by (codes "main") (map signed_of signed.now))) }
{
    match Name::new(alloc, "main") {
        Ok(name) => Ok(signed_as(signed, &name).map(|one| one.id)),
        Err(_) => Err(MemoryError),
    }
}

/// What is kept of a module behind its last item.
fn checked(
    alloc: Global,
    module: ModuleId,
    text: &ModuleText,
    sigs: Vec<Sig>,
    stage: Stage,
) -> Result<Checked, MemoryError>
    ensures { IfOk result (λ c. accepted_of c ≡
        accepted «module» (module_of text.now) (map sig_of sigs.items)
        (checked_at (home_of «module» (module_of text.now)) (stage_of stage))) }
{
    let Stage {
        globals,
        signed,
        holes,
        ..
    } = stage;
    let Ok(definitions) = u32::try_from(signed.len()) else {
        return Err(MemoryError);
    };
    Ok(Checked {
        exports: exports(alloc, module, text, sigs)?,
        part: globals.part(alloc, module)?,
        definitions,
        header: text.header,
        holes,
        main: main_of(alloc, &signed)?,
    })
}

/// The same, of the module of this number that is asked for by this name.
fn answer<C: Converter>(
    judge: &Judge<'_, C>,
    text: &ModuleText,
    asked: &Name,
    imports: &[Exports],
    globals: &Globals,
) -> Result<Checked, ModuleError>
    requires { judge.now.home.now ≡ text.now.name }
    ensures { Gives accepted_of result (judged_text judge.now.«module» judge.now.budget asked.now
        (map exports_of imports.now) (entries globals.now) (module_of text.now)) }
{
    let FilledText { text: filled, sigs } = prepared(
        judge.alloc,
        judge.module,
        asked,
        imports,
        text,
    )?;
    let ModuleText { items, .. } = filled;
    let stage = items_in_turn(judge, globals.copy(judge.alloc)?, items)?;
    Ok(checked(judge.alloc, judge.module, text, sigs, stage)?)
}

/// Judges the text of a module that is asked for by this name: its header, its names over the
/// exports of its imports without Prim, its implicit arguments, and its items in turn, over an
/// environment that holds what its imports and Prim declare. Each question has `budget`
/// contractions. The environment is copied once.
pub fn check_module<C: Converter>(
    alloc: Global,
    converter: &C,
    budget: u64,
    module: ModuleId,
    text: &ModuleText,
    asked: &Name,
    imports: &[Exports],
    globals: &Globals,
) -> Result<Checked, ModuleError>
    ensures gives { Gives accepted_of result (judged_text «module» budget asked.now
        (map exports_of imports.now) (entries globals.now) (module_of text.now)) }
    ensures sound { IfOk result (λ c. DeclaresText «module» asked.now
        (map exports_of imports.now) (entries globals.now) (module_of text.now)
        (accepted_of c)) }
    ensures refused { WhereRefused result (λ r. RefusesText «module» budget asked.now
        (map exports_of imports.now) (entries globals.now) (module_of text.now) r) }
{
    let judge = Judge {
        alloc,
        converter,
        budget,
        module,
        home: &text.name,
    };
    texts_are_judged();
    answer(&judge, text, asked, imports, globals)
}
