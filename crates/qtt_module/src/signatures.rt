//! Signatures.

ghost use Rattle.std.specs.Prelude.{◌≡◌, IfOk, None};
ghost use Rattle.qtt_syntax.specs.View.{tree_of};
ghost use Rattle.qtt_term.specs.Items.{definition_entry};
ghost use Rattle.qtt_bidi.specs.Calls.{Answers, entries_of};
ghost use Rattle.qtt_module.specs.Families.{signature as signature_asks};

use crate::contexts::no_context;
use crate::declarer::Declarer;
use crate::names::qualified;
use qtt_base::{GlobalId, Name};
use qtt_rules::ElabError;
use qtt_syntax::Expr;
use qtt_term::{Converter, Definition};
use qtt_usage::mult::Mult;

impl<'a, C: Converter> Declarer<'a, C> {
    /// The definition of a signature, without a body.
    pub fn signature(
        &self,
        id: GlobalId,
        name: &Name,
        mult: Mult,
        ty: &Expr,
    ) -> Result<Definition, ElabError>
        ensures gives { Answers self.now.elaborator
            (signature_asks (entries_of self.now.elaborator) id self.now.home.now name.now mult
            (tree_of ty.now)) definition_entry result }
        ensures bare { IfOk result (λ d. d.body ≡ None) }
    {
        let alloc = self.elaborator.alloc;
        let context = no_context(alloc);
        let ty = self.type_of(&context, name, 8, ty)?;
        Ok(Definition {
            id,
            name: qualified(alloc, self.home, name)?,
            mult,
            ty,
            body: None,
        })
    }
}
