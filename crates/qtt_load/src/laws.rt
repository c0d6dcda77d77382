//! Laws of loading. Each function does nothing: its contract is the law.

ghost use Rattle.qtt_load.specs.Laws.{LoadedAreBuilds, RingsHavePlaces};

/// In what is loaded the named module stands first, no two modules have one name, and each import
/// but Prim is one of them; no other is there than those to which imports lead from the named one,
/// and they are within the limit.
pub fn loaded_are_builds()
    ensures { LoadedAreBuilds }
{}

/// Each ring that is told stands at an import.
pub fn rings_have_places()
    ensures { RingsHavePlaces }
{}
