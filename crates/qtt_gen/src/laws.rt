//! What holds of all generated modules. Each function does nothing: its contract is the law.

ghost use Rattle.qtt_gen.specs.Laws.{Canonical, Counted};

/// Four modules for each number, and `Main`.
pub fn modules_are_counted()
    ensures { Counted }
{}

/// Each text is what the printer writes of its tree.
pub fn texts_are_canonical()
    ensures { Canonical }
{}
