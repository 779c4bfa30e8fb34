//! Summaries of inputs.

/// The summary of an input without an error.
#[derive(Clone, Copy, Debug)]
pub struct TextSummary<'a> {
    /// How many sections the input has.
    pub sections: u64,
    /// How many items the sections have.
    pub items: u64,
    /// How many lines are inconsistent: they count a function without a start line, or state a total that differs from the
    /// section's own.
    pub odd: u64,
    /// How many lines are skipped. Empty lines don't count.
    pub skipped: u64,
    /// The first skipped line.
    pub first: Option<SkippedLine<'a>>,
}

/// A skipped line.
#[derive(Clone, Copy, Debug)]
pub struct SkippedLine<'a> {
    /// The beginning of the line: the colons, spaces and tabs at its front, and what follows them up to the next colon, space or
    /// tab. The beginning has 1 to 16 bytes.
    pub start: &'a [u8],
    /// The line's number in the input. Lines are counted from 1, empty ones too.
    pub at: u64,
}

impl TextSummary<'_> {
    ghost use Rattle.std.specs.Prelude.{◌↔◌, ◌<◌, IsTrue};

    /// Whether the input has an item.
    pub fn has_item(&self) -> bool
        ensures { IsTrue result ↔ (0 < self.now.items) }
    {
        self.items > 0
    }
}
