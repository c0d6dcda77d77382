//! Worked examples of the definitions. The function does nothing: its contract is what was
//! computed.

ghost use Rattle.qtt_reading_laws.specs.Examples.{ReadingRows};

/// The trees and the first faults of small texts, and one that is printed and read again.
pub fn readings_as_worked()
    ensures { ReadingRows }
{}
