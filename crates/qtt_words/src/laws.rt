//! How the crate `clap` reads the command line. Each function does nothing: its contract is the
//! law.

ghost use Rattle.qtt_words.specs.Laws.{TakesLines, AsksAlike};

/// It takes exactly the lines of the definition: the words with two plain ones in which no option
/// is unknown, lacks its value or stands twice.
pub fn clap_takes_lines()
    ensures { TakesLines }
{}

/// What its matches ask for is what the words ask for by the definition.
pub fn clap_asks_alike()
    ensures { AsksAlike }
{}
