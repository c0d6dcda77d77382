//! Between two tokens.

ghost use Rattle.std.specs.Prelude.{◌≡◌, ◌+◌, ◌<◌, ◌≤◌, ◌^◌, ◌∷◌, ◌++◌, [], length, vec_len, IsTrue, OnOk, IfOk};
ghost use Rattle.qtt_layout.specs.Rules.{closed_by, brackets_behind, item_of};
ghost use Rattle.qtt_layout.specs.Written.{Adds};

use crate::block::{Block, right_of, since_bracket};
use crate::marks::Marks;
use crate::role::Role;
use qtt_base::{MemoryError, Span};
use qtt_lexer::Token;
use std::alloc::Global;

/// Between two tokens: the open blocks, the newest last; how many brackets are open; the line of
/// the token before; and whether a block is awaited.
#[derive(Debug, Drop)]
pub struct Between {
    pub blocks: Vec<Block>,
    pub brackets: usize,
    pub line: u32,
    pub awaits: bool,
}

impl Between {
    ghost use Rattle.qtt_layout.specs.Rules.{start, opens, newest, empty_block, closes, without_newest, aligned_at, by_column, added, behind, at_end};
    ghost use Rattle.qtt_layout.specs.Between.{state_of, with_blocks, PutsNext, PutsBefore, Lays};
    ghost use Rattle.qtt_layout.specs.declared.laid.Laid.TheVariants.{Open};

    pub fn new(alloc: Global) -> Between
        ensures { state_of result ≡ start }
    {
        Between {
            blocks: Vec::new(alloc),
            brackets: 0,
            line: 0,
            awaits: true,
        }
    }

    // Whether the token opens the awaited block.
    fn opens(&self, token: &Token) -> bool
        ensures { result ≡ opens (state_of self.now) token.now }
    {
        self.awaits
            && match self.blocks.last() {
                Some(block) => block.col < token.span.col,
                None => true,
            }
    }

    // An awaited block that is empty.
    fn put_empty_block(&self, span: Span, marks: &mut Marks) -> Result<(), MemoryError>
        ensures { OnOk result (Adds marks.old marks.new (empty_block (state_of self.now) span)) }
    {
        if self.awaits {
            marks.put_open(span)?;
            marks.put_close(span)?;
        }
        Ok(())
    }

    fn open(&mut self, span: Span, marks: &mut Marks) -> Result<(), MemoryError>
        ensures marks { OnOk result (Adds marks.old marks.new (Open span ∷ [])) }
        ensures state { OnOk result (state_of self.new ≡ with_blocks (state_of self.old)
            (self.old.blocks.items ++ record { col = span.col; brackets = self.old.brackets } ∷
            [])) }
    {
        marks.put_open(span)?;
        self.blocks.push(Block {
            col: span.col,
            brackets: self.brackets,
        })?;
        Ok(())
    }

    // So many of the newest blocks close.
    fn close(&mut self, count: usize, span: Span, marks: &mut Marks) -> Result<(), MemoryError>
        requires { count ≤ vec_len self.old.blocks }
        ensures marks { OnOk result (Adds marks.old marks.new (closes count span)) }
        ensures state { state_of self.new ≡ with_blocks (state_of self.old)
            (without_newest count self.old.blocks.items) }
    {
        self.blocks.truncate(self.blocks.len() - count);
        marks.put_closes(count, span)
    }

    // A Next where the newest block stands at the token's column; false where there is no block.
    fn put_next(&self, span: Span, marks: &mut Marks) -> bool
        ensures { PutsNext (newest self.now.blocks.items) span marks.old marks.new result }
    {
        let Some(block) = self.blocks.last() else {
            return false;
        };
        if block.col == span.col {
            marks.put_next(span);
        }
        true
    }

    // Closes the blocks right of the token; false where the token is left of every block.
    fn align(&mut self, span: Span, marks: &mut Marks) -> Result<bool, MemoryError>
        ensures { IfOk result (PutsBefore (state_of self.old)
            (aligned_at (state_of self.old) span) marks.old marks.new (state_of self.new)) }
    {
        let count = right_of(span.col, self.blocks.as_slice());
        self.put_empty_block(span, marks)?;
        self.close(count, span, marks)?;
        Ok(self.put_next(span, marks))
    }

    // The marks by the token's column; false where it is left of the outermost block.
    fn put_by_column(&mut self, token: &Token, marks: &mut Marks) -> Result<bool, MemoryError>
        ensures { IfOk result (PutsBefore (state_of self.old)
            (by_column (state_of self.old) token.now) marks.old marks.new (state_of self.new)) }
    {
        if self.opens(token) {
            self.open(token.span, marks)?;
            return Ok(true);
        }
        if token.span.line == self.line {
            self.put_empty_block(token.span, marks)?;
            return Ok(true);
        }
        self.align(token.span, marks)
    }

    // The token behind its marks, by its role.
    fn put_behind_column(
        &mut self,
        role: Role,
        token: &Token,
        marks: &mut Marks,
    ) -> Result<(), MemoryError>
        requires { self.old.brackets + 1 < 2 ^ 64 }
        ensures marks { OnOk result (Adds marks.old marks.new
            (added role (state_of self.old) token.now self.old.blocks.items)) }
        ensures state { OnOk result
            (state_of self.new ≡ behind role (state_of self.old) token.now self.old.blocks.items) }
        ensures brackets { OnOk result (self.new.brackets ≤ self.old.brackets + 1) }
    {
        let count = closed_by(role, self.brackets, self.blocks.as_slice());
        self.close(count, token.span, marks)?;
        put_item(role, token, marks)?;
        self.brackets = brackets_behind(role, self.brackets);
        self.line = token.span.line;
        self.awaits = role == Role::Opener;
        Ok(())
    }

    /// A token that is not End, with its marks; false where it stands left of the outermost
    /// block.
    pub fn lay(&mut self, role: Role, token: &Token, marks: &mut Marks) -> Result<bool, MemoryError>
        requires { self.old.brackets + 1 < 2 ^ 64 }
        ensures value { IfOk result (Lays role (state_of self.old) token.now
            (by_column (state_of self.old) token.now) marks.old marks.new (state_of self.new)) }
        ensures brackets { IfOk result
            (λ found. IsTrue found → self.new.brackets ≤ self.old.brackets + 1) }
    {
        if !self.put_by_column(token, marks)? {
            return Ok(false);
        }
        self.put_behind_column(role, token, marks)?;
        Ok(true)
    }

    /// The marks at the end.
    pub fn finish(&mut self, end: &Token, marks: &mut Marks) -> Result<(), MemoryError>
        ensures { OnOk result (Adds marks.old marks.new (at_end (state_of self.old) end.now)) }
    {
        self.put_empty_block(end.span, marks)?;
        let count = self.blocks.len();
        self.close(count, end.span, marks)
    }
}

fn closed_by(role: Role, brackets: usize, blocks: &[Block]) -> usize
    ensures value { result ≡ closed_by role brackets blocks.now }
    ensures within { result ≤ length blocks.now }
{
    match role {
        Role::RightBracket => since_bracket(brackets, blocks),
        _ => 0,
    }
}

fn brackets_behind(role: Role, brackets: usize) -> usize
    requires { brackets + 1 < 2 ^ 64 }
    ensures { result ≡ brackets_behind role brackets }
{
    match role {
        Role::LeftBracket => brackets + 1,
        Role::RightBracket => brackets.saturating_sub(1),
        _ => brackets,
    }
}

fn put_item(role: Role, token: &Token, marks: &mut Marks) -> Result<(), MemoryError>
    ensures { OnOk result (Adds marks.old marks.new (item_of role token.now ∷ [])) }
{
    match role {
        Role::Semicolon => marks.put_next(token.span),
        _ => marks.put_token(token.copy()?)?,
    }
    Ok(())
}
