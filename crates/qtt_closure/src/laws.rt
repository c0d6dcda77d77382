//! Laws of closure conversion. Each function does nothing: its contract is the law.

ghost use Rattle.qtt_closure.specs.Laws.{ConversionStandsForItsTerm, FlatTermsRunInStep};

/// A converted term stands for its term, in each program that has its functions.
pub fn conversion_stands_for_its_term()
    ensures { ConversionStandsForItsTerm }
{}

/// A flat term takes the steps of the erased term that it stands for, one for one.
pub fn flat_terms_run_in_step()
    ensures { FlatTermsRunInStep }
{}
