//! What the definitions say of small builds. Each function does nothing: its contract is what was
//! computed.

ghost use Rattle.qtt_load.specs.Rows.{LoadingRows, RefusalRows};

/// The order in which modules are read, and where it stops.
pub fn loading_as_worked()
    ensures { LoadingRows }
{}

/// Another name, a ring and too many modules, with their lines.
pub fn refusals_as_worked()
    ensures { RefusalRows }
{}
