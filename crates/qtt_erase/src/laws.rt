//! Laws of erasure. Each function does nothing: its contract is the law.

ghost use Rattle.qtt_erase.specs.Laws.{ErasedTermsRunInStep};

/// In each environment whose bodies have no erased use, an erased term takes the steps of its
/// term, one for one.
pub fn erased_terms_run_in_step()
    ensures { ErasedTermsRunInStep }
{}
