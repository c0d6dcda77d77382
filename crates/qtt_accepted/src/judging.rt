//! The judgement of a text, with what it promises by the rules.

ghost use Rattle.std.specs.Prelude.{map, IfOk};
ghost use Rattle.qtt_names.specs.Exports.{exports_of};
ghost use Rattle.qtt_syntax.specs.View.{module_of};
ghost use Rattle.qtt_term.specs.Entries.{entries};
ghost use Rattle.qtt_module.specs.Answer.{Gives, WhereRefused};
ghost use Rattle.qtt_module.specs.Text.{judged_text};
ghost use Rattle.qtt_module.specs.TextCalls.{DeclaresText, RefusesText, accepted_of};
ghost use Rattle.qtt_accepted.specs.Calls.{IsOver, Promises};

use qtt_base::{ModuleId, Name};
use qtt_module::{Checked, ModuleError};
use qtt_names::Exports;
use qtt_syntax::ModuleText;
use qtt_term::{Converter, Globals};
use std::alloc::Global;

/// Judges the text of a module, as `qtt_module::check_module` does. Over a well-formed environment,
/// under a number whose ids are new there, its part keeps the environment well formed; what the
/// text declares by the rules is the answer, unless a question takes more than the budget; and a
/// premise for which it is refused is false in the rules' own terms.
pub fn check_module<C: Converter>(
    alloc: Global,
    converter: &C,
    budget: u64,
    module: ModuleId,
    text: &ModuleText,
    asked: &Name,
    imports: &[Exports],
    globals: &Globals,
) -> Result<Checked, ModuleError>
    ensures gives { Gives accepted_of result (judged_text «module» budget asked.now
        (map exports_of imports.now) (entries globals.now) (module_of text.now)) }
    ensures sound { IfOk result (λ c. DeclaresText «module» asked.now
        (map exports_of imports.now) (entries globals.now) (module_of text.now)
        (accepted_of c)) }
    ensures refused { WhereRefused result (λ r. RefusesText «module» budget asked.now
        (map exports_of imports.now) (entries globals.now) (module_of text.now) r) }
    ensures promises { IsOver «module» (module_of text.now) (entries globals.now) →
        Promises «module» budget asked.now (map exports_of imports.now) (entries globals.now)
        (module_of text.now) result }
{
    qtt_module::check_module(
        alloc, converter, budget, module, text, asked, imports, globals,
    )
}
