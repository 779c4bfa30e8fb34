//! Splits lines into parts: runs of bytes of one class, keys and numbers.

ghost use Rattle.std.specs.Prelude.{◌≡◌, ◌+◌, ◌-◌, ◌*◌, option_map};
ghost use Rattle.std.specs.List.{list_all};
ghost use Rattle.covline.specs.Reading.{is_digit};
ghost use Rattle.covread.specs.Gcov.{are_digits, without_last};
ghost use Rattle.covread.specs.GcovReading.{in_class, front_of, rest_of, some_front, after_spaces, fitting, number_of, ends_word, is_name, last_called};

use covline::strip_key;

/// A class of bytes.
#[derive(Clone, Copy)]
pub(crate) enum Class {
    /// `0` to `9`.
    Digit,
    /// Only the space.
    Space,
    /// A byte of a mark: any byte except space and colon.
    Mark,
    /// A byte of a word: any byte except space.
    Word,
}

impl Class {
    /// Whether the byte is of this class.
    fn has(self, byte: u8) -> bool
        ensures { result ≡ in_class self byte }
    {
        match self {
            Class::Digit => byte.is_ascii_digit(),
            Class::Space => byte == b' ',
            Class::Mark => byte != b' ' && byte != b':',
            Class::Word => byte != b' ',
        }
    }
}

/// The text without the bytes of this class, if any, at its front.
pub(crate) fn after_all(text: &[u8], class: Class) -> &[u8]
    ensures { result.now ≡ rest_of (in_class class) text.now }
{
    let mut rest = text;
    while let [byte, after @ ..] = rest {
        if !class.has(*byte) {
            break;
        }
        rest = after;
    }
    rest
}

/// The bytes of this class at the front of the text, and the rest of the text. Returns `None` if the text doesn't begin with such a
/// byte.
pub(crate) fn split_some(text: &[u8], class: Class) -> Option<(&[u8], &[u8])>
    ensures { option_map (λ parts. (parts.0.now, parts.1.now)) result ≡ some_front (in_class class) text.now }
{
    let rest = after_all(text, class);
    if rest.len() == text.len() {
        return None;
    }
    Some((&text[..text.len() - rest.len()], rest))
}

/// The text without the spaces at its front. Returns `None` if the text doesn't begin with a space.
pub(crate) fn after_spaces(text: &[u8]) -> Option<&[u8]>
    ensures { option_map (λ rest. rest.now) result ≡ after_spaces text.now }
{
    let (_, rest) = split_some(text, Class::Space)?;
    Some(rest)
}

/// Whether the text is one or more digits, and nothing else.
pub(crate) fn are_digits(text: &[u8]) -> bool
    ensures { result ≡ are_digits text.now }
{
    !text.is_empty() && all_digits(text)
}

/// Whether all bytes are digits.
fn all_digits(text: &[u8]) -> bool
    ensures { result ≡ list_all is_digit text.now }
{
    text.iter().all(|byte| byte.is_ascii_digit())
}

/// The number that the digits spell. Returns `None` if the number is 2^64 or more.
pub(crate) fn number(digits: &[u8]) -> Option<u64>
    ensures { result ≡ number_of digits.now }
{
    let mut number: u64 = 0;
    for digit in digits {
        number = push_digit(number, *digit)?;
    }
    Some(number)
}

/// The number with one more decimal digit at its end. Returns `None` if the result is 2^64 or more.
fn push_digit(number: u64, digit: u8) -> Option<u64>
    ensures { result ≡ fitting (number * 10 + (digit - 48)) }
{
    let tens = number.checked_mul(10);
    tens.and_then(|tens| tens.checked_add(u64::from(digit.saturating_sub(b'0'))))
}

/// The text without a `byte` at its end. Returns the text unchanged if it doesn't end in `byte`.
pub(crate) fn without_last(text: &[u8], byte: u8) -> &[u8]
    ensures { result.now ≡ without_last byte text.now }
{
    let Some((last, front)) = text.split_last() else {
        return text;
    };
    if *last == byte { front } else { text }
}

/// Whether a word right before this text ends there: the text is empty or begins with a space.
pub(crate) fn ends_word(text: &[u8]) -> bool
    ensures { result ≡ ends_word text.now }
{
    match text {
        [] => true,
        [byte, ..] => *byte == b' ',
    }
}

/// Whether a tracefile can hold this name of a function: the name isn't empty and doesn't end in a carriage return.
pub(crate) fn is_name(name: &[u8]) -> bool
    ensures { result ≡ is_name name.now }
{
    match name.split_last() {
        Some((last, _)) => *last != b'\r',
        None => false,
    }
}

/// The text after the last ` called `. Returns `None` if the text doesn't contain ` called `.
pub(crate) fn after_last_called(text: &[u8]) -> Option<&[u8]>
    ensures { option_map (λ rest. rest.now) result ≡ last_called text.now }
{
    let mut found = None;
    let mut rest = text;
    while let [_, after @ ..] = rest {
        if let Some(count) = strip_key(rest, b" called ") {
            found = Some(count);
        }
        rest = after;
    }
    found
}
