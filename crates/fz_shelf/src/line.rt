//! Lines, each with its line feed.
ghost use Rattle.std.specs.Prelude.{◌≡◌, IfOk, string_bytes, true};
ghost use Rattle.fz_shelf.specs.{Lines.IsLine, Lines.has_no_end, Parts.ended};

use std::alloc::AllocError;
use std::marker::Model;

/// A line, which a contract sees as the list of its bytes. The last byte is the only line feed in it.
#[derive(Drop)]
pub struct Line {
    text: String,
}

impl Model for Line {
    ghost use Rattle.std.specs.Prelude.{ℕ, List, string_bytes};
    ghost use Rattle.fz_shelf.specs.Lines.{IsLine};

    ghost Value = { List ℕ };

    ghost view = { λ l. string_bytes l.text };

    ghost invariant = { λ l. IsLine (string_bytes l.text) };
}

impl Line {
    /// The line of a text, to which this adds the line feed.
    pub fn of(mut text: String) -> Result<Line, AllocError>
        requires { has_no_end (string_bytes text) ≡ true }
        ensures { IfOk result (λ line. line ≡ ended (string_bytes text)) }
    {
        text.push_str("\n")?;
        Ok(Line { text })
    }

    pub fn as_bytes(&self) -> &[u8]
        ensures value { result.now ≡ self.now }
        ensures line { IsLine self.now }
    {
        self.text.as_bytes()
    }
}
