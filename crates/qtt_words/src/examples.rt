//! What is read of words. Each function does nothing: its contract is what was computed.

ghost use Rattle.qtt_words.specs.Rows.{WordRows, NameRows, ClapRows};

/// Words that are read, and words that are not.
pub fn words_as_worked()
    ensures { WordRows }
{}

/// Words that are names of modules, and words that are not.
pub fn names_as_worked()
    ensures { NameRows }
{}

/// Lines that the crate `clap` takes by its contract, and lines that it refuses.
pub fn clap_as_worked()
    ensures { ClapRows }
{}
