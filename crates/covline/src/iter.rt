//! The iterator over a text's lines. The type `Lines` and the function `lines` differ only in case, so the two can't share a
//! module.

use crate::text_lines::first_line;
use std::marker::Model;

/// An iterator over the lines of a text. Contracts see the rest of the text.
#[derive(Drop)]
pub struct Lines<'a> {
    rest: &'a [u8],
}

impl<'a> Model for Lines<'a> {
    ghost use Rattle.std.specs.Prelude.{List, ℕ};

    ghost Value = { List ℕ };

    ghost view = { λ l. l.rest.now };
}

impl<'a> Lines<'a> {
    ghost use Rattle.std.specs.Prelude.{◌≡◌};

    /// Returns an iterator that starts at the front of the text.
    pub(crate) fn of(text: &'a [u8]) -> Lines<'a>
        ensures { result ≡ text.now }
    {
        Lines { rest: text }
    }
}

impl<'a> Iterator for Lines<'a> {
    ghost use Rattle.std.specs.Iterator.{YieldsFirstBy, item_count};
    ghost use Rattle.covline.specs.Lines.{lines_of};

    type Item = &'a [u8];

    ghost next_gives = { YieldsFirstBy (λ line. line.now) lines_of };

    ghost remaining = { item_count lines_of };

    fn next(&mut self) -> Option<&'a [u8]> {
        let text = self.rest;
        if text.is_empty() {
            return None;
        }
        let (line, rest) = first_line(text);
        self.rest = rest;
        Some(line)
    }
}
