//! Packs the parts of an item into a word and a list of numbers.

ghost use Rattle.std.specs.Prelude.{◌≡◌, ◌+◌, ◌<◌, ◌≤◌, ◌%◌, length, true, nat_lt, IfOk, OnErr, OnOk};
ghost use Rattle.covpacked.specs.Layout.{BeginWith, IsAppended, IsBranch, IsPackedAs, begin_of, room_of, with_line};
ghost use Rattle.covpacked.specs.declared.parts.Kind.TheVariants as kinds;
ghost use Rattle.covpacked.specs.Words.{kind_number, kind_of, line_in, long_parts, long_word, number_at, parts_of, short_parts, upper_in};

use covdata::Memory;
use std::alloc::Allocator;

/// The kind of an item.
#[derive(Clone, Copy, PartialEq, Eq)]
pub(crate) enum Kind {
    /// A line without a checksum.
    Line,
    /// A line with a checksum.
    Checked,
    /// A branch whose block was executed.
    Taken,
    /// A branch whose block was never executed.
    Untaken,
    /// A function.
    Function,
}

/// The parts of an item.
#[derive(Clone, Copy)]
pub(crate) struct Parts {
    pub kind: Kind,
    /// The line, or the start line of a function.
    pub line: u64,
    /// The execution count, or how often the branch was taken.
    pub count: u128,
    /// A branch's block, or the index of the first byte of the item's text.
    pub first: u64,
    /// A branch's number in its block, or the number of bytes of the item's text.
    pub second: u64,
}

/// 2^63, the smallest word that isn't a short word.
const LONG_WORD: u64 = 9_223_372_036_854_775_808;

/// 2^30: only smaller lines fit into a short word.
const LINES: u64 = 1_073_741_824;

/// 2^31: the upper half of a short word is smaller.
const UPPER: u64 = 2_147_483_648;

/// 2^16: numbers of 16 bits are smaller.
const QUARTER: u64 = 65_536;

/// 2^32: numbers of 32 bits are smaller.
const HALF: u64 = 4_294_967_296;

/// 2^64: numbers of 64 bits are smaller.
const WHOLE: u128 = 18_446_744_073_709_551_616;

impl Kind {
    /// The kind's number.
    fn number(self) -> u64
        ensures { result ≡ kind_number self }
    {
        match self {
            Kind::Line => 0,
            Kind::Checked => 1,
            Kind::Taken => 2,
            Kind::Untaken => 3,
            Kind::Function => 4,
        }
    }

    /// The kind with this number. Any number above 3 is a function's.
    #[inline(always)]
    fn of(number: u64) -> Kind
        ensures { result ≡ kind_of number }
    {
        if number == 0 {
            Kind::Line
        } else if number == 1 {
            Kind::Checked
        } else if number == 2 {
            Kind::Taken
        } else if number == 3 {
            Kind::Untaken
        } else {
            Kind::Function
        }
    }
}

/// The number at an index; 0 past the end.
#[inline(always)]
fn number_at(numbers: &[u64], index: u64) -> u64
    ensures { result ≡ number_at numbers.now index }
{
    match numbers.get(index as usize) {
        Some(number) => *number,
        None => 0,
    }
}

/// Unpacks an item's parts from `word` and `numbers`.
#[inline(always)]
pub(crate) fn parts_of(numbers: &[u64], word: u64) -> Parts
    ensures { result ≡ parts_of numbers.now word }
{
    if word < LONG_WORD {
        return short_parts(numbers, word / 4 % LINES, word / HALF, Kind::of(word % 4));
    }
    long_parts(numbers, word - LONG_WORD)
}

/// Unpacks the parts of a short word that has this line, upper half and kind.
#[inline(always)]
fn short_parts(numbers: &[u64], line: u64, upper: u64, kind: Kind) -> Parts
    requires { upper < 4294967296 }
    ensures { result ≡ short_parts numbers.now line upper kind }
{
    match kind {
        Kind::Line | Kind::Function => Parts {
            kind: Kind::Line,
            line,
            count: u128::from(upper),
            first: 0,
            second: 0,
        },
        Kind::Checked => Parts {
            kind,
            line,
            count: u128::from(number_at(numbers, upper) % HALF),
            first: number_at(numbers, upper + 1),
            second: number_at(numbers, upper) / HALF,
        },
        Kind::Taken | Kind::Untaken => Parts {
            kind,
            line,
            count: u128::from(number_at(numbers, upper) / HALF),
            first: number_at(numbers, upper) % QUARTER,
            second: number_at(numbers, upper) / QUARTER % QUARTER,
        },
    }
}

/// Unpacks the parts of a long word: six numbers from index `begin` on.
fn long_parts(numbers: &[u64], begin: u64) -> Parts
    requires { begin < long_word }
    ensures { result ≡ long_parts numbers.now begin }
{
    Parts {
        kind: Kind::of(number_at(numbers, begin)),
        line: number_at(numbers, begin + 1),
        count: u128::from(number_at(numbers, begin + 3)) * WHOLE
            + u128::from(number_at(numbers, begin + 2)),
        first: number_at(numbers, begin + 4),
        second: number_at(numbers, begin + 5),
    }
}

/// Sets the line of the item with this word to `line`, if the item is a function's.
pub(crate) fn set_line<A: Allocator>(numbers: &mut Vec<u64, A>, word: u64, line: u64)
    requires { begin_of 0 word + room_of word ≤ length numbers.old.items }
    ensures { numbers.new.items ≡ with_line word line numbers.old.items }
{
    if word < LONG_WORD {
        return;
    }
    let begin = word - LONG_WORD;
    match Kind::of(number_at(numbers.as_slice(), begin)) {
        Kind::Function => numbers[begin as usize + 1] = line,
        Kind::Line | Kind::Checked | Kind::Taken | Kind::Untaken => {}
    }
}

/// Packs `parts` into a word, and returns this word. Appends to `numbers` what doesn't fit into the word. Leaves `numbers`
/// unchanged on `Memory`.
#[inline(always)]
pub(crate) fn pack<A: Allocator>(numbers: &mut Vec<u64, A>, parts: Parts) -> Result<u64, Memory>
    ensures ok { IfOk result (λ word. IsPackedAs parts word numbers.old.items numbers.new.items) }
    ensures err { OnErr result (numbers.new.items ≡ numbers.old.items) }
{
    match parts.kind {
        Kind::Line => pack_line(numbers, parts),
        Kind::Checked => pack_checked(numbers, parts),
        Kind::Taken => pack_branch(numbers, parts),
        Kind::Untaken => pack_branch(numbers, parts),
        Kind::Function => pack_long(numbers, parts),
    }
}

/// Packs `parts`, and appends the resulting word to `words`. Leaves `words` unchanged on `Memory`.
#[inline(always)]
pub(crate) fn append<A: Allocator>(
    words: &mut Vec<u64, A>,
    numbers: &mut Vec<u64, A>,
    parts: Parts,
) -> Result<(), Memory>
    ensures ok { OnOk result (IsAppended parts words.old.items words.new.items numbers.old.items numbers.new.items) }
    ensures err { OnErr result (words.new.items ≡ words.old.items) }
    ensures numbers { BeginWith numbers.new.items numbers.old.items }
{
    let word = pack(numbers, parts)?;
    words.push(word)?;
    Ok(())
}

/// The short word with this kind, line and upper half.
#[inline(always)]
fn short_word(kind: Kind, line: u64, upper: u64) -> u64
    requires kind { kind_number kind < 4 }
    requires line { line < 1073741824 }
    requires upper { upper < 2147483648 }
    ensures short { nat_lt result long_word ≡ true }
    ensures kind { kind_of (result % 4) ≡ kind }
    ensures line { line_in result ≡ line }
    ensures upper { upper_in result ≡ upper }
{
    kind.number() + line * 4 + upper * HALF
}

/// Packs a line without a checksum.
#[inline(always)]
fn pack_line<A: Allocator>(numbers: &mut Vec<u64, A>, parts: Parts) -> Result<u64, Memory>
    requires { parts.kind ≡ kinds.Line }
    ensures ok { IfOk result (λ word. IsPackedAs parts word numbers.old.items numbers.new.items) }
    ensures err { OnErr result (numbers.new.items ≡ numbers.old.items) }
{
    let is_short = parts.line < LINES && parts.count < u128::from(UPPER);
    if is_short && parts.first == 0 && parts.second == 0 {
        return Ok(short_word(Kind::Line, parts.line, parts.count as u64));
    }
    pack_long(numbers, parts)
}

/// Packs a line with a checksum.
fn pack_checked<A: Allocator>(numbers: &mut Vec<u64, A>, parts: Parts) -> Result<u64, Memory>
    requires { parts.kind ≡ kinds.Checked }
    ensures ok { IfOk result (λ word. IsPackedAs parts word numbers.old.items numbers.new.items) }
    ensures err { OnErr result (numbers.new.items ≡ numbers.old.items) }
{
    let begin = numbers.len() as u64;
    let is_short = parts.line < LINES && begin < UPPER;
    if is_short && parts.count < u128::from(HALF) && parts.second < HALF {
        let word = short_word(Kind::Checked, parts.line, begin);
        numbers.extend_from_slice(&[parts.count as u64 + parts.second * HALF, parts.first])?;
        return Ok(word);
    }
    pack_long(numbers, parts)
}

/// Packs a branch.
#[inline(always)]
fn pack_branch<A: Allocator>(numbers: &mut Vec<u64, A>, parts: Parts) -> Result<u64, Memory>
    requires { IsBranch parts.kind }
    ensures ok { IfOk result (λ word. IsPackedAs parts word numbers.old.items numbers.new.items) }
    ensures err { OnErr result (numbers.new.items ≡ numbers.old.items) }
{
    let begin = numbers.len() as u64;
    let is_short = parts.line < LINES && begin < UPPER && parts.count < u128::from(HALF);
    if is_short && parts.first < QUARTER && parts.second < QUARTER {
        let word = short_word(parts.kind, parts.line, begin);
        numbers.push(parts.first + parts.second * QUARTER + parts.count as u64 * HALF)?;
        return Ok(word);
    }
    pack_long(numbers, parts)
}

/// Packs `parts` into a long word and six numbers.
fn pack_long<A: Allocator>(numbers: &mut Vec<u64, A>, parts: Parts) -> Result<u64, Memory>
    ensures ok { IfOk result (λ word. IsPackedAs parts word numbers.old.items numbers.new.items) }
    ensures err { OnErr result (numbers.new.items ≡ numbers.old.items) }
{
    let word = LONG_WORD + numbers.len() as u64;
    numbers.extend_from_slice(&[
        parts.kind.number(),
        parts.line,
        (parts.count % WHOLE) as u64,
        (parts.count / WHOLE) as u64,
        parts.first,
        parts.second,
    ])?;
    Ok(word)
}
