//! What the judgement answers.

use qtt_term::Term;
use qtt_usage::usage::Usage;

/// The type of a term, and the uses of the context's variables.
#[derive(Debug, Drop)]
pub struct Judged {
    pub ty: Term,
    pub uses: Usage,
}
