//! The test of a main.

ghost use Rattle.std.specs.Prelude.{◌≡◌, IfOk};
ghost use Rattle.qtt_rules.specs.Refusal.{Cause, at};
ghost use Rattle.qtt_term.specs.Entries.{entries};
ghost use Rattle.qtt_term.specs.Signature.{UnitTy, IoTy};
ghost use Rattle.qtt_term.specs.Term.Io.{io};
ghost use Rattle.qtt_term.specs.View.{term};
ghost use Rattle.qtt_term.specs.declared.rule.Rule.TheVariants.{Main};
ghost use Rattle.qtt_bidi.specs.Answers.{Told};
ghost use Rattle.qtt_module.specs.MainCall.{TestsMain};
ghost use Rattle.qtt_module.specs.ModuleRules.{IsMain};
ghost use Rattle.qtt_module.specs.Answer.{Gives, WhereRefused};
ghost use Rattle.qtt_module.specs.TextCalls.{RefusesMain, accepted_of, judged_main};

use crate::checked::Checked;
use crate::errors::ModuleError;
use crate::laws::mains_are_judged;
use crate::refusals::told;
use qtt_base::{GlobalId, Span};
use qtt_prims::ActKind;
use qtt_rules::{Detail, ElabError};
use qtt_term::signatures::action_signature;
use qtt_term::{Answer, Converter, Globals, Question, Rule, Term, TermError};
use qtt_usage::mult::Mult;
use std::alloc::Global;

/// The refusal of a main by this premise.
fn wrong_main(header: Span, premise: u8) -> ElabError
    ensures { Told Cause.wrong_main (at header Main premise) result }
{
    ElabError::Refused(Detail::WrongMain, header, Rule::Main, premise)
}

/// The type of a main: that of what writes a line.
fn type_of_main(alloc: Global) -> Result<Term, TermError>
    ensures { IfOk result (λ t. term t ≡ IoTy io UnitTy) }
{
    Ok(action_signature(alloc, ActKind::PutLine)?.ty)
}

/// The main of a program whose root module has its header there and names `named` so: it is a
/// definition of the environment that is not 0, and its type compares Equal to `IO Unit`, within
/// `budget` contractions. The refusal is that of the first of these premises that is false, or of
/// the question.
fn test_main<C: Converter>(
    alloc: Global,
    converter: &C,
    budget: u64,
    globals: &Globals,
    header: Span,
    named: Option<GlobalId>,
) -> Result<GlobalId, ElabError>
    ensures { TestsMain (entries globals.now) budget header named result }
{
    let Some(id) = named else {
        return Err(wrong_main(header, 1));
    };
    let Some(main) = globals.definition(id) else {
        return Err(wrong_main(header, 1));
    };
    if let Mult::Zero = main.mult {
        return Err(wrong_main(header, 1));
    }
    let expected = type_of_main(alloc)?;
    match converter.compare(alloc, budget, globals, &main.ty, &expected)? {
        Answer::Equal => Ok(id),
        Answer::Different(_) => Err(wrong_main(header, 2)),
        Answer::Spent => {
            let question = Question::Compare(0, main.ty.copy(alloc)?, expected);
            let kept = Detail::BudgetSpent { budget, question };
            Err(ElabError::Refused(kept, header, Rule::Main, 2))
        }
    }
}

/// The main of a program whose root module is this accepted one, over an environment that holds its
/// part. Each question has `budget` contractions.
pub fn check_main<C: Converter>(
    alloc: Global,
    converter: &C,
    budget: u64,
    globals: &Globals,
    checked: &Checked,
) -> Result<GlobalId, ModuleError>
    ensures gives { Gives (λ d. d) result
        (judged_main budget (entries globals.now) (accepted_of checked.now)) }
    ensures sound { IfOk result (λ d. IsMain (entries globals.now) checked.now.main d) }
    ensures refused { WhereRefused result
        (λ r. RefusesMain budget (entries globals.now) (accepted_of checked.now) r) }
{
    mains_are_judged();
    answer(alloc, converter, budget, globals, checked)
}

/// The same.
fn answer<C: Converter>(
    alloc: Global,
    converter: &C,
    budget: u64,
    globals: &Globals,
    checked: &Checked,
) -> Result<GlobalId, ModuleError>
    ensures { Gives (λ d. d) result
        (judged_main budget (entries globals.now) (accepted_of checked.now)) }
{
    match test_main(
        alloc,
        converter,
        budget,
        globals,
        checked.header,
        checked.main,
    ) {
        Ok(id) => Ok(id),
        Err(error) => {
            let names = globals.copy(alloc)?;
            Err(told(alloc, &checked.exports.name, names, error))
        }
    }
}
