//! The laws of names. The functions do nothing: their contracts are the laws.

ghost use Rattle.qtt_names_laws.specs.Heads.{PatternNamesAreItems};
ghost use Rattle.qtt_names_laws.specs.Laws.{NamesSeeByTheText, SightIsAFunction, ResolvedByTheText};
ghost use Rattle.qtt_names_laws.specs.Worked.{HeadsAsWorked, SightsAsWorked, TextsAsWorked};

/// What the code answers for a name is what the name sees at its place of the text.
pub fn names_see_by_the_text()
    ensures { NamesSeeByTheText }
{}

/// A name sees one thing, nothing, or more than one thing.
pub fn sight_is_a_function()
    ensures { SightIsAFunction }
{}

/// The text with targets is the one that the rules relate to the text, and a fault is the first
/// one in text order.
pub fn resolved_by_the_text()
    ensures { ResolvedByTheText }
{}

/// What names see at places, worked.
pub fn sights_as_worked()
    ensures { SightsAsWorked }
{}

/// Texts beside what they resolve to, worked.
pub fn texts_as_worked()
    ensures { TextsAsWorked }
{}

/// Each constructor name in a pattern of a text with targets stands for an own item that stands
/// before it, or for one that an import exports.
pub fn pattern_names_are_items()
    ensures { PatternNamesAreItems }
{}

/// The constructor names of patterns, worked.
pub fn heads_as_worked()
    ensures { HeadsAsWorked }
{}
