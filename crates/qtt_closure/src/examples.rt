//! Conversions of small programs. Each function does nothing: its contract is what was computed.

ghost use Rattle.qtt_closure.specs.Rows.{ConversionRows};

/// The functions of small programs.
pub fn converted_as_worked()
    ensures { ConversionRows }
{}
