//! The lines and columns of many bytes of one text, in whatever order.
ghost use Rattle.std.specs.Prelude.{◌≡◌, ◌+◌, ◌<◌, ◌≤◌, IfOk, length};
ghost use Rattle.refusal_words.specs.Places.{column_at, line_at};
ghost use Rattle.refusal_words.specs.Positions.{IsPosition};

use crate::place::begins_character;
use std::alloc::{AllocError, Global};
use std::marker::Model;

/// The number of bytes from one mark of a text to the next.
const MARK_GAP: usize = 16;

/// The line and the column of a byte of a text, as `place_in` counts them.
#[derive(Clone, Copy)]
pub struct Position {
    /// The number of its line, counted from 1.
    pub line: usize,
    /// Its number among the characters of its line, counted from 1.
    pub column: usize,
}

/// A text, and the positions of every 16th byte: that of any other one is counted from the mark before it. A contract sees the text.
#[derive(Drop)]
pub struct Positions<'a> {
    text: &'a [u8],
    marks: Vec<Position>,
}

impl<'a> Model for Positions<'a> {
    ghost use Rattle.std.specs.Prelude.{ℕ, List};
    ghost use Rattle.refusal_words.specs.Positions.{AreMarks};

    ghost Value = { List ℕ };

    ghost view = { λ p. p.text.now };

    ghost invariant = { λ p. AreMarks p.text.now p.marks.items };
}

/// The position behind a byte.
fn next_position(text: &[u8], at: usize, position: Position) -> Position
    requires inside { at < length text.now }
    requires here { IsPosition text.now at position }
    ensures { IsPosition text.now (at + 1) result }
{
    let byte = text[at];
    if byte == b'\n' {
        Position {
            line: position.line + 1,
            column: 1,
        }
    } else if begins_character(byte) {
        Position {
            line: position.line,
            column: position.column + 1,
        }
    } else {
        position
    }
}

/// The position of a byte, counted from one before it.
fn count_on(text: &[u8], from: usize, position: Position, at: usize) -> Position
    requires ordered { from ≤ at }
    requires within { at ≤ length text.now }
    requires here { IsPosition text.now from position }
    ensures { IsPosition text.now at result }
{
    let mut position = position;
    for i in from..at {
        position = next_position(text, i, position);
    }
    position
}

impl<'a> Positions<'a> {
    /// Those of a text.
    pub fn new(alloc: Global, text: &'a [u8]) -> Result<Positions<'a>, AllocError>
        ensures { IfOk result (λ positions. positions ≡ text.now) }
    {
        let mut marks = Vec::new(alloc);
        let mut position = Position { line: 1, column: 1 };
        marks.push(position)?;
        for number in 0..text.len() / MARK_GAP {
            let at = MARK_GAP * number;
            position = count_on(text, at, position, at + MARK_GAP);
            marks.push(position)?;
        }
        Ok(Positions { text, marks })
    }

    /// The position of a byte. One behind the end is taken for the end.
    pub fn of(&self, byte: usize) -> Position
        ensures line { result.line ≡ line_at self.now byte }
        ensures column { result.column ≡ column_at self.now byte }
    {
        let at = byte.min(self.text.len());
        let number = at / MARK_GAP;
        count_on(self.text, MARK_GAP * number, self.marks[number], at)
    }
}
