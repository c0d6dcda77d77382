//! The blocks of a text, by the columns of its tokens.
//!
//! `blocks` answers exactly the marks that count, or the first token left of the outermost
//! block (`exact`). It keeps the tokens, balances its blocks and puts no idle Next (`tokens`,
//! `blocks`, `nexts`). Worked: `examples::blocks_as_worked`.
#![tactic(auto)]

mod between;
mod block;
mod errors;
pub mod examples;
mod laid;
mod layout;
mod marks;
mod role;

pub use errors::LayoutError;
pub use laid::Laid;
pub use layout::blocks;
