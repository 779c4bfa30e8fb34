//! Finds the beginning of a line, which the summary shows.

ghost use Rattle.std.specs.Prelude.{◌≡◌};
ghost use Rattle.covcheck.specs.Skipped.{is_cut, start_of};
ghost use Rattle.covcheck.specs.CheckSteps.{after_cuts, after_word};

/// The greatest length of a line's beginning, in bytes.
const MAX_SHOWN: usize = 16;

/// The beginning of a line: the colons, spaces and tabs at its front, and what follows them up to the next colon, space or tab. The
/// beginning has at most 16 bytes.
pub(crate) fn start_of(line: &[u8]) -> &[u8]
    ensures { result.now ≡ start_of line.now }
{
    let front = &line[..MAX_SHOWN.min(line.len())];
    let rest = after_word(after_cuts(front));
    &front[..front.len() - rest.len()]
}

/// Whether the byte is a colon, a space or a tab.
fn is_cut(byte: u8) -> bool
    ensures { result ≡ is_cut byte }
{
    byte == b':' || byte == b' ' || byte == b'\t'
}

/// The text without the colons, spaces and tabs at its front.
fn after_cuts(text: &[u8]) -> &[u8]
    ensures { result.now ≡ after_cuts text.now }
{
    let mut rest = text;
    while let [byte, after @ ..] = rest {
        if !is_cut(*byte) {
            break;
        }
        rest = after;
    }
    rest
}

/// The text from its first colon, space or tab on. Empty if the text has none of these.
fn after_word(text: &[u8]) -> &[u8]
    ensures { result.now ≡ after_word text.now }
{
    let mut rest = text;
    while let [byte, after @ ..] = rest {
        if is_cut(*byte) {
            break;
        }
        rest = after;
    }
    rest
}
