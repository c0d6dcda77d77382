//! Laws of refusals. The function does nothing: its contract is the law.

ghost use Rattle.qtt_rules.specs.View.{CausesHaveTheirKinds};

/// A refusal of the code has the kind of the cause that it stands for.
pub fn causes_have_their_kinds()
    ensures { CausesHaveTheirKinds }
{}
