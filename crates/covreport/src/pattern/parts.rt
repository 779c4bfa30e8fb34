//! The parts of a pattern, read from its front.

ghost use Rattle.std.specs.Prelude.{◌≡◌, [], MatchOption, option_map};
ghost use Rattle.covreport.specs.Pattern.{OneByte, in_body, takes as set_takes, body_of, opened_set, quoted, head_of};
ghost use Rattle.covreport.specs.PatternParts.{set_data, BeginsWithRange, head_data, after_body, after_head};

use memchr::memchr;

/// The bytes that a part of a pattern matches. A set `[...]` is stored as its body.
#[derive(Clone, Copy)]
pub(crate) enum ByteSet<'a> {
    /// Any byte.
    Any,
    /// Only this byte.
    Exactly(u8),
    /// The bytes of a set with this body.
    OneOf(&'a [u8]),
    /// The bytes outside a set with this body.
    NoneOf(&'a [u8]),
}

/// A part of a pattern: a star, or what matches one byte.
#[derive(Clone, Copy)]
pub(crate) enum Part<'a> {
    /// Matches any run of bytes, even an empty run.
    AnyRun,
    /// Matches one byte of the set.
    OneByte(ByteSet<'a>),
}

impl<'a> ByteSet<'a> {
    /// Whether the set contains `byte`.
    pub(crate) fn takes(self, byte: u8) -> bool
        ensures { result ≡ set_takes (set_data self.entry) byte }
    {
        match self {
            ByteSet::Any => true,
            ByteSet::Exactly(other) => byte == other,
            ByteSet::OneOf(body) => body_takes(body, byte),
            ByteSet::NoneOf(body) => !body_takes(body, byte),
        }
    }
}

/// Whether the body of a set contains `byte`.
fn body_takes(body: &[u8], byte: u8) -> bool
    ensures { result ≡ in_body byte body.now }
{
    let mut rest = body;
    while let Some((low, high, behind)) = read_range(rest) {
        if low <= byte && byte <= high {
            return true;
        }
        rest = behind;
    }
    false
}

/// The range at the front of a set's body, and the rest of the body. A byte is a range of its own unless a `-` and another byte
/// follow it. Returns `None` if the body is empty.
fn read_range(body: &[u8]) -> Option<(u8, u8, &[u8])>
    ensures { MatchOption result (body.now ≡ []) (λ range. BeginsWithRange body.now range.0 range.1 range.2.now) }
{
    match body {
        [] => None,
        [low, b'-', high, rest @ ..] => Some((*low, *high, rest)),
        [byte, rest @ ..] => Some((*byte, *byte, rest)),
    }
}

/// The first part of a pattern, and the rest of the pattern.
#[derive(Clone, Copy)]
pub(crate) struct Head<'a> {
    pub(crate) part: Part<'a>,
    pub(crate) rest: &'a [u8],
}

/// Combines a part that matches one byte of `set` with the rest of the pattern.
fn one_byte<'a>(set: ByteSet<'a>, rest: &'a [u8]) -> Head<'a>
    ensures { head_data result ≡ (OneByte (set_data set.entry), rest.now) }
{
    Head {
        part: Part::OneByte(set),
        rest,
    }
}

/// Splits the text after a `[` or `[!` into the set's body and the rest of the pattern. Returns `None` if no `]` closes the set.
fn read_body(text: &[u8]) -> Option<(&[u8], &[u8])>
    ensures { option_map (λ read. (read.0.now, read.1.now)) result ≡ option_map (after_body text.now) (body_of text.now) }
{
    let (_, behind) = text.split_first()?;
    let close = memchr(b']', behind)?;
    Some((&text[..close + 1], &behind[close + 1..]))
}

/// The set that begins with a `[` before `rest`, and the pattern after this set. Returns `None` if no `]` closes the set.
fn read_set(rest: &[u8]) -> Option<Head<'_>>
    ensures { option_map head_data result ≡ option_map (after_head rest.now) (opened_set rest.now) }
{
    if let [b'!', text @ ..] = rest {
        let (body, behind) = read_body(text)?;
        return Some(one_byte(ByteSet::NoneOf(body), behind));
    }
    let (body, behind) = read_body(rest)?;
    Some(one_byte(ByteSet::OneOf(body), behind))
}

/// The part that begins with a `\` before `rest`. It matches only the first byte of `rest`, or a `\` if `rest` is empty.
fn read_quoted(rest: &[u8]) -> Head<'_>
    ensures { head_data result ≡ after_head rest.now (quoted rest.now) }
{
    match rest {
        [byte, behind @ ..] => one_byte(ByteSet::Exactly(*byte), behind),
        [] => one_byte(ByteSet::Exactly(b'\\'), rest),
    }
}

/// The first part of the pattern made of the byte `first` and the bytes `rest`.
pub(crate) fn read_head(first: u8, rest: &[u8]) -> Head<'_>
    ensures { head_data result ≡ after_head rest.now (head_of first rest.now) }
{
    match first {
        b'*' => Head {
            part: Part::AnyRun,
            rest,
        },
        b'?' => one_byte(ByteSet::Any, rest),
        b'\\' => read_quoted(rest),
        b'[' => read_set(rest).unwrap_or(one_byte(ByteSet::Exactly(first), rest)),
        _ => one_byte(ByteSet::Exactly(first), rest),
    }
}
