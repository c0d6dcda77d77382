//! The line that tells why a module is refused.
//!
//! `message` writes exactly the line of a refusal of any kind: module, place, kind and what the
//! refusal keeps, without the byte that ends it. The numbers of the table are those of the kinds
//! (`laws::kinds_agree`), and the patterns of a missing clause stand as the printer of module
//! texts writes them (`laws::patterns_as_printed`). `fault_detail` is exactly what a refusal
//! keeps of a fault of reading, of whose kind it is (`laws::faults_keep_their_kinds`). Worked, of
//! each kind: `examples::messages_as_worked`, `examples::faults_as_worked`.
#![tactic(auto)]

mod detail;
pub mod examples;
mod fault;
pub mod laws;
pub mod line;
mod parts;
mod patterns;

pub use fault::fault_detail;
pub use line::message;
