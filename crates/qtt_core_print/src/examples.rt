//! What the definitions print of small terms. Each function does nothing: its contract is what was
//! computed.

ghost use Rattle.qtt_core_print.specs.Rows.{PrintedRows};

/// Terms of every form, and the lines of small programs.
pub fn printed_as_worked()
    ensures { PrintedRows }
{}
