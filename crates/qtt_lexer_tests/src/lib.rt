//! Tests of the public calls of `qtt_lexer`.
#![tactic(auto)]

#[cfg(test)]
mod tests;
