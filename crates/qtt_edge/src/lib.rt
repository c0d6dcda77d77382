//! The outside as traits: where module texts come from, input, output, tapes, and the gate of a
//! build's workers.
//!
//! Each trait has meanings that contracts see: content, which some objects tell and others do
//! not, and counts of faults. The types of `memory` tell their content and are exact for every
//! sequence of calls: over a list of failing calls, who knows the list and the number of the
//! next call knows which of all later calls fail (`laws::calls_fail_as_listed`,
//! `puts_fail_as_listed`). The adapters of the real thing (`FolderVault`, `StdSource`,
//! `StdSink`, `FileTapes`) meet their traits and tell nothing of content.
//! `LineCutter::next_line` answers exactly the next line, within 65,537 pulls.
//!
//! A theory: its lemmas on lines and tapes may be cited.
#![tactic(auto)]

pub mod adapters;
pub mod counts;
pub mod examples;
pub mod gate;
pub mod laws;
pub mod line_cutter;
pub mod memory;
pub mod plan;
pub mod sink;
pub mod source;
pub mod tapes;
pub mod vault;

pub use adapters::file_tapes::FileTapes;
pub use adapters::folder_vault::FolderVault;
pub use adapters::std_sink::StdSink;
pub use adapters::std_source::StdSource;
pub use gate::{Gate, OpenGate};
pub use line_cutter::{LineCutter, LineError, Next};
pub use memory::byte_sink::ByteSink;
pub use memory::byte_source::ByteSource;
pub use memory::map_vault::MapVault;
pub use memory::tape_rack::TapeRack;
pub use plan::{FailingCalls, FailingPut, FailingPuts, FailurePlan, NeverFails};
pub use sink::{Sink, SinkError};
pub use source::{Source, SourceError};
pub use tapes::{TapeError, Tapes};
pub use vault::{Vault, VaultError};
