//! Parses one line of a tracefile, without copying. The line's first bytes tell its key. The key's own function then parses the
//! fields from left to right.

ghost use Rattle.std.specs.Prelude.{◌≡◌, ◌≤◌, ◌+◌, ◌*◌, ◌-◌, ◌++◌, ◌∷◌, ℕ, All, List, Option, [], None, Some, Ok, codes, option_map, Err, MatchOption, MatchResult, IfOk, IfErr, IfSome};
ghost use Rattle.covdata.specs.declared.trace_line.LineFault.{LineFault};
ghost use Rattle.covdata.specs.Points.{BranchPoint as BranchData};
ghost use Rattle.covdata.specs.PointView.{branch_point_data};
ghost use Rattle.covdata.specs.Records.{LineData, Line, Branch, line_data};
ghost use Rattle.covline.specs.Spells.{Spells, HasFault, BeginsWithLine};
ghost use Rattle.covline.specs.Fronts.{BeginsWithBranchLine, BeginsWithCountedLine, after_checksum, branch_front, checksum_front, count_end, counted_front, small_front, small_of, taken_front};
ghost use Rattle.covdata.specs.Delimiters.{line_feed};
ghost use Rattle.covline.specs.Reading.{Gives, after_key, sized_number, with_digit, digits_from, number_at, number_of, count_at, before_comma, field_at, taken_of, only_checksum, checksum_of, fit, fit_count, start_fields, func_count_fields, branch_of, branch_fields, line_fields, total_fields, path_fields, read_of};

use covdata::{BranchPoint, LineFault, TotalKind, TraceLine, good_checksum, is_checksum_byte};

/// A parsed number, in the variant for its size.
#[derive(Clone, Copy)]
pub enum Number {
    /// A number below 2^64, the common case.
    Value(u64),
    /// A number of at least 2^64 and below 2^128.
    U128(u128),
    /// A number of 2^128 or more.
    TooLarge,
}

impl Number {
    /// Returns `value` in the variant for its size.
    fn of(value: u128) -> Number
        ensures { result ≡ sized_number value }
    {
        match u64::try_from(value) {
            Ok(value) => Number::Value(value),
            Err(_) => Number::U128(value),
        }
    }

    /// The number if it fits into 64 bits, else `NumberTooLarge`.
    pub fn fit(self) -> Result<u64, LineFault>
        ensures { result ≡ fit self }
    {
        match self {
            Number::Value(value) => Ok(value),
            Number::U128(_) | Number::TooLarge => Err(LineFault::NumberTooLarge),
        }
    }

    /// The number if it fits into the 128 bits of a count, else `NumberTooLarge`.
    pub fn fit_count(self) -> Result<u128, LineFault>
        ensures { result ≡ fit_count self }
    {
        match self {
            Number::Value(value) => Ok(u128::from(value)),
            Number::U128(value) => Ok(value),
            Number::TooLarge => Err(LineFault::NumberTooLarge),
        }
    }

    /// The number if it fits into 64 bits, else `None`. Callers leave the whole line to `read_line` on `None`.
    fn small(self) -> Option<u64>
        ensures { result ≡ small_of self }
    {
        match self {
            Number::Value(value) => Some(value),
            Number::U128(_) | Number::TooLarge => None,
        }
    }
}

/// Returns `number` with the ASCII digit `digit` appended.
fn push_digit(number: Number, digit: u8) -> Number
    requires { 48 ≤ digit }
    ensures { result ≡ with_digit number digit }
{
    match number {
        Number::Value(value) => push_wide(u128::from(value), digit),
        Number::U128(value) => push_wide(value, digit),
        Number::TooLarge => Number::TooLarge,
    }
}

/// Returns the 128-bit number `value` with the ASCII digit `digit` appended.
fn push_wide(value: u128, digit: u8) -> Number
    requires { 48 ≤ digit }
    ensures { result ≡ sized_number (value * 10 + (digit - 48)) }
{
    let tens = value.checked_mul(10);
    match tens.and_then(|tens| tens.checked_add(u128::from(digit - b'0'))) {
        Some(value) => Number::of(value),
        None => Number::TooLarge,
    }
}

/// The largest number that stays below 2^64 whatever digit is appended. Every 18-digit number is smaller, so 19 digits never need
/// an overflow check.
const LARGEST_EXTENDABLE: u64 = 1_844_674_407_370_955_160;

/// Parses the digits at the front of the text. Returns their number (0 if the text begins with no digit) and the rest of the text.
fn read_digits(text: &[u8]) -> (Number, &[u8])
    ensures value { result.0 ≡ (digits_from (Number.Value 0) text.now).0 }
    ensures rest { result.1.now ≡ (digits_from (Number.Value 0) text.now).1 }
{
    let mut value = 0;
    let mut rest = text;
    while let [digit, after @ ..] = rest {
        if !digit.is_ascii_digit() {
            break;
        }
        if value > LARGEST_EXTENDABLE {
            return read_more_digits(Number::Value(value), rest);
        }
        value = value * 10 + u64::from(*digit - b'0');
        rest = after;
    }
    (Number::Value(value), rest)
}

/// Appends the digits at the front of the text to the number `front`, with overflow checks. Returns the number and the rest of the
/// text.
#[cold]
fn read_more_digits(front: Number, text: &[u8]) -> (Number, &[u8])
    ensures value { result.0 ≡ (digits_from front text.now).0 }
    ensures rest { result.1.now ≡ (digits_from front text.now).1 }
{
    let mut number = front;
    let mut rest = text;
    while let [digit, after @ ..] = rest {
        if !digit.is_ascii_digit() {
            break;
        }
        number = push_digit(number, *digit);
        rest = after;
    }
    (number, rest)
}

/// Parses the number at the front of the text. Returns the number and the rest, or `None` if the text doesn't begin with a digit.
pub fn read_number(text: &[u8]) -> Option<(Number, &[u8])>
    ensures { option_map (λ front. (front.0, front.1.now)) result ≡ number_at text.now }
{
    match text {
        [digit, ..] if digit.is_ascii_digit() => Some(read_digits(text)),
        _ => None,
    }
}

/// Parses the whole text as a number. Returns `None` unless the text is one or more digits.
pub fn read_whole(text: &[u8]) -> Option<Number>
    ensures { result ≡ number_of text.now }
{
    match read_number(text)? {
        (number, []) => Some(number),
        _ => None,
    }
}

/// Parses the execution count at the front of the text. Returns the count and the rest of the text. A minus and digits are the
/// count 0.
#[inline]
pub fn read_count(text: &[u8]) -> Option<(Number, &[u8])>
    ensures { option_map (λ front. (front.0, front.1.now)) result ≡ count_at text.now }
{
    let [b'-', digits @ ..] = text else {
        return read_number(text);
    };
    let (_, rest) = read_number(digits)?;
    Some((Number::Value(0), rest))
}

/// Returns `number` and the text after the comma that `rest` begins with, or `None` if `rest` doesn't begin with a comma.
pub fn split_comma(number: Number, rest: &[u8]) -> Option<(Number, &[u8])>
    ensures { option_map (λ front. (front.0, front.1.now)) result ≡ before_comma number rest.now }
{
    match rest {
        [b',', rest @ ..] => Some((number, rest)),
        _ => None,
    }
}

/// Parses a number and a comma at the front of the text. Returns the number and the rest of the text.
pub fn read_field(text: &[u8]) -> Option<(Number, &[u8])>
    ensures { option_map (λ front. (front.0, front.1.now)) result ≡ field_at text.now }
{
    let (number, rest) = read_number(text)?;
    split_comma(number, rest)
}

/// Parses how often a branch was taken. Returns `Some(None)` for `-`, and `None` if the text is neither `-` nor a number.
pub fn read_taken(text: &[u8]) -> Option<Option<Number>>
    ensures { result ≡ taken_of text.now }
{
    match text {
        [b'-'] => Some(None),
        _ => Some(Some(read_whole(text)?)),
    }
}

/// Returns the text if it is a checksum, else `None`.
fn whole_checksum(text: &[u8]) -> Option<&[u8]>
    ensures { option_map (λ c. c.now) result ≡ only_checksum text.now }
{
    good_checksum(text).then_some(text)
}

/// Parses the optional checksum after a line's count. Returns `Some(None)` for an empty text, the checksum for a comma and a
/// checksum, and `None` for any other text.
fn read_checksum(text: &[u8]) -> Option<Option<&[u8]>>
    ensures { option_map (option_map (λ c. c.now)) result ≡ checksum_of text.now }
{
    match text {
        [] => Some(None),
        [b',', checksum @ ..] => Some(Some(whole_checksum(checksum)?)),
        _ => None,
    }
}

/// Parses the fields after `FN:`.
fn start_record(fields: &[u8]) -> Result<TraceLine<'_>, LineFault>
    ensures { Gives result (start_fields fields.now) }
{
    let Some((line, name @ [_, ..])) = read_field(fields) else {
        return Err(LineFault::BadLine);
    };
    let line = line.fit()?;
    Ok(TraceLine::FuncStart { line, name })
}

/// Parses the fields after `FNDA:`.
fn func_count_record(fields: &[u8]) -> Result<TraceLine<'_>, LineFault>
    ensures { Gives result (func_count_fields fields.now) }
{
    let Some((count, rest)) = read_count(fields) else {
        return Err(LineFault::BadLine);
    };
    let Some((count, name @ [_, ..])) = split_comma(count, rest) else {
        return Err(LineFault::BadLine);
    };
    let count = count.fit_count()?;
    Ok(TraceLine::FuncCount { count, name })
}

/// Parses the fields after `BRDA:`.
fn branch_record(fields: &[u8]) -> Result<TraceLine<'_>, LineFault>
    ensures { Gives result (branch_fields fields.now) }
{
    let Some((line, rest)) = read_field(fields) else {
        return Err(LineFault::BadLine);
    };
    let Some((block, rest)) = read_field(rest) else {
        return Err(LineFault::BadLine);
    };
    let Some((branch, rest)) = read_field(rest) else {
        return Err(LineFault::BadLine);
    };
    match read_taken(rest) {
        None => Err(LineFault::BadLine),
        Some(taken) => fit_branch(line, block, branch, taken),
    }
}

/// Returns the branch's record if all numbers fit, else `NumberTooLarge`.
fn fit_branch<'a>(
    line: Number,
    block: Number,
    branch: Number,
    taken: Option<Number>,
) -> Result<TraceLine<'a>, LineFault>
    ensures { Gives result (branch_of line block branch taken) }
{
    let line = line.fit()?;
    let block = block.fit()?;
    let branch = branch.fit()?;
    let taken = match taken {
        Some(taken) => Some(taken.fit_count()?),
        None => None,
    };
    Ok(TraceLine::Branch {
        line,
        block,
        branch,
        taken,
    })
}

/// Parses the fields after `DA:`.
fn line_record(fields: &[u8]) -> Result<TraceLine<'_>, LineFault>
    ensures { Gives result (line_fields fields.now) }
{
    let Some((line, rest)) = read_field(fields) else {
        return Err(LineFault::BadLine);
    };
    let Some((count, rest)) = read_count(rest) else {
        return Err(LineFault::BadLine);
    };
    let Some(checksum) = read_checksum(rest) else {
        return Err(LineFault::BadLine);
    };
    let line = line.fit()?;
    let count = count.fit_count()?;
    Ok(TraceLine::Line {
        line,
        count,
        checksum,
    })
}

/// Parses the field after the key of a total.
fn total_record(kind: TotalKind, field: &[u8]) -> Result<TraceLine<'_>, LineFault>
    ensures { Gives result (total_fields kind field.now) }
{
    let Some(value) = read_whole(field) else {
        return Err(LineFault::BadLine);
    };
    let value = value.fit()?;
    Ok(TraceLine::Total { kind, value })
}

/// Parses the path after `SF:`. Returns `EmptyPath` if the path is empty.
fn path_record(path: &[u8]) -> Result<TraceLine<'_>, LineFault>
    ensures { Gives result (path_fields path.now) }
{
    if path.is_empty() {
        return Err(LineFault::EmptyPath);
    }
    Ok(TraceLine::Path(path))
}

/// Parses `rest`, a line without its first byte `B`. The line's key is `BRDA:`, `BRF:`, `BRH:` or unknown.
#[tactic(auto, unfolding(crate::specs::Reading::read_of))]
fn branch_key(rest: &[u8]) -> Result<TraceLine<'_>, LineFault>
    ensures { Gives result (read_of (codes "B" ++ rest.now)) }
{
    if let Some(fields) = strip_key(rest, b"RDA:") {
        return branch_record(fields);
    }
    if let Some(found) = strip_key(rest, b"RF:") {
        return total_record(TotalKind::BranchFound, found);
    }
    if let Some(hit) = strip_key(rest, b"RH:") {
        return total_record(TotalKind::BranchHit, hit);
    }
    Ok(TraceLine::Skip)
}

/// Parses `rest`, a line without its first byte `F`. The line's key is `FN:`, `FNDA:`, `FNF:`, `FNH:` or unknown.
#[tactic(auto, unfolding(crate::specs::Reading::read_of))]
fn function_key(rest: &[u8]) -> Result<TraceLine<'_>, LineFault>
    ensures { Gives result (read_of (codes "F" ++ rest.now)) }
{
    if let Some(fields) = strip_key(rest, b"N:") {
        return start_record(fields);
    }
    if let Some(fields) = strip_key(rest, b"NDA:") {
        return func_count_record(fields);
    }
    if let Some(found) = strip_key(rest, b"NF:") {
        return total_record(TotalKind::FuncFound, found);
    }
    if let Some(hit) = strip_key(rest, b"NH:") {
        return total_record(TotalKind::FuncHit, hit);
    }
    Ok(TraceLine::Skip)
}

/// Parses `rest`, a line without its first byte `L`. The line's key is `LF:`, `LH:` or unknown.
#[tactic(auto, unfolding(crate::specs::Reading::read_of))]
fn line_total(rest: &[u8]) -> Result<TraceLine<'_>, LineFault>
    ensures { Gives result (read_of (codes "L" ++ rest.now)) }
{
    if let Some(found) = strip_key(rest, b"F:") {
        return total_record(TotalKind::LineFound, found);
    }
    if let Some(hit) = strip_key(rest, b"H:") {
        return total_record(TotalKind::LineHit, hit);
    }
    Ok(TraceLine::Skip)
}

/// Returns the text after `key`, or `None` if the text doesn't begin with `key`.
pub fn strip_key<'a>(text: &'a [u8], key: &[u8]) -> Option<&'a [u8]>
    ensures { option_map (λ rest. rest.now) result ≡ after_key key.now text.now }
{
    let mut left = key;
    let mut rest = text;
    while let [byte, more @ ..] = left {
        match rest {
            [first, after @ ..] if first == byte => rest = after,
            _ => return None,
        }
        left = more;
    }
    Some(rest)
}

/// Parses `rest`, a line without its first byte `e`: the end of a section, or an unknown key.
#[tactic(auto, unfolding(crate::specs::Reading::read_of))]
fn end_key(rest: &[u8]) -> TraceLine<'_>
    ensures { read_of (codes "e" ++ rest.now) ≡ Ok (line_data result) }
{
    match strip_key(rest, b"nd_of_record") {
        Some(_) => TraceLine::End,
        None => TraceLine::Skip,
    }
}

/// Parses `rest`, a line without its first byte `D`. The line's key is `DA:` or unknown.
#[tactic(auto, unfolding(crate::specs::Reading::read_of))]
fn line_key(rest: &[u8]) -> Result<TraceLine<'_>, LineFault>
    ensures { Gives result (read_of (codes "D" ++ rest.now)) }
{
    if let Some(fields) = strip_key(rest, b"A:") {
        return line_record(fields);
    }
    Ok(TraceLine::Skip)
}

/// Parses `rest`, a line without its first byte `S`. The line's key is `SF:` or unknown.
#[tactic(auto, unfolding(crate::specs::Reading::read_of))]
fn path_key(rest: &[u8]) -> Result<TraceLine<'_>, LineFault>
    ensures { Gives result (read_of (codes "S" ++ rest.now)) }
{
    if let Some(path) = strip_key(rest, b"F:") {
        return path_record(path);
    }
    Ok(TraceLine::Skip)
}

/// Parses `rest`, a line without its first byte `T`. The line's key is `TN:` or unknown.
#[tactic(auto, unfolding(crate::specs::Reading::read_of))]
fn test_key(rest: &[u8]) -> TraceLine<'_>
    ensures { read_of (codes "T" ++ rest.now) ≡ Ok (line_data result) }
{
    match strip_key(rest, b"N:") {
        Some(name) => TraceLine::Test(name),
        None => TraceLine::Skip,
    }
}

/// Parses the line that consists of the byte `first` and then `rest`.
#[tactic(auto, unfolding(crate::specs::Reading::read_of))]
fn read_after(first: u8, rest: &[u8]) -> Result<TraceLine<'_>, LineFault>
    ensures { Gives result (read_of (first ∷ rest.now)) }
{
    match first {
        b'D' => line_key(rest),
        b'B' => branch_key(rest),
        b'F' => function_key(rest),
        b'L' => line_total(rest),
        b'S' => path_key(rest),
        b'T' => Ok(test_key(rest)),
        b'e' => Ok(end_key(rest)),
        _ => Ok(TraceLine::Skip),
    }
}

/// Parses a line. An empty line is `Skip`.
#[tactic(auto, unfolding(crate::specs::Reading::read_of))]
pub fn read_any(line: &[u8]) -> Result<TraceLine<'_>, LineFault>
    ensures { Gives result (read_of line.now) }
{
    match line {
        [first, rest @ ..] => read_after(*first, rest),
        [] => Ok(TraceLine::Skip),
    }
}

/// Parses one line of a tracefile (geninfo(1), section FILES), as cut by `lines`: without line feed and final carriage returns.
/// Names in the record are slices of the line. Only a line with a known key can fail: `BadLine` for malformed fields, which is
/// checked first; `NumberTooLarge` for a count of 2^128 or more, or another number of 2^64 or more; `EmptyPath` for `SF:` alone.
pub fn read_line(line: &[u8]) -> Result<TraceLine<'_>, LineFault>
    ensures ok { IfOk result (λ t. Spells line.now (line_data t)) }
    ensures err { IfErr result (λ f. HasFault line.now f) }
    ensures only { (says : LineData) → Spells line.now says → MatchResult result (λ t. line_data t ≡ says) (λ f. ⊥) }
    ensures only_fault { (fault : LineFault) → HasFault line.now fault → result ≡ Err fault }
{
    read_any(line)
}

/// Returns the text after `DA:`, or `None` if the text doesn't begin with `DA:`.
fn after_count_key(text: &[u8]) -> Option<&[u8]>
    ensures { option_map (λ rest. rest.now) result ≡ after_key (codes "DA:") text.now }
{
    match text {
        [b'D', b'A', b':', fields @ ..] => Some(fields),
        _ => None,
    }
}

/// Returns what follows the line feed at the front of the text, or `None` if the text doesn't begin with a line feed.
pub fn after_feed(text: &[u8]) -> Option<&[u8]>
    ensures { option_map (λ rest. rest.now) result ≡ after_key (line_feed ∷ []) text.now }
{
    match text {
        [b'\n', rest @ ..] => Some(rest),
        _ => None,
    }
}

/// A `DA:` line, parsed from the front of a text, and the rest of the text.
#[derive(Clone, Copy)]
pub struct LineCount<'a> {
    /// The line's number in the source file.
    pub line: u64,
    /// The line's execution count.
    pub count: u64,
    /// The checksum of the line's text, if the record has one.
    pub checksum: Option<&'a [u8]>,
    /// The text after the first line.
    pub rest: &'a [u8],
}

/// Skips the bytes at the front of the text that a checksum may contain. Returns the rest.
fn after_checksum(text: &[u8]) -> &[u8]
    ensures { result.now ≡ after_checksum text.now }
{
    let mut rest = text;
    while let Some((byte, after)) = rest.split_first() {
        if !is_checksum_byte(*byte) {
            break;
        }
        rest = after;
    }
    rest
}

/// Splits off the checksum at the front of the text. Returns the checksum and the rest, or `None` if the text begins with no
/// checksum.
fn front_checksum(text: &[u8]) -> Option<(&[u8], &[u8])>
    ensures { option_map (λ front. (front.0.now, front.1.now)) result ≡ checksum_front text.now }
{
    let rest = after_checksum(text);
    let checksum = &text[..text.len() - rest.len()];
    if checksum.is_empty() {
        return None;
    }
    Some((checksum, rest))
}

/// Parses the end of a `DA:` line after the count: a line feed, or a comma, a checksum and a line feed. Returns the optional
/// checksum and the rest of the text, or `None` if the text begins otherwise.
fn split_count_end(text: &[u8]) -> Option<(Option<&[u8]>, &[u8])>
    ensures { option_map (λ end. (option_map (λ c. c.now) end.0, end.1.now)) result ≡ count_end text.now }
{
    if let [b',', fields @ ..] = text {
        let (checksum, rest) = front_checksum(fields)?;
        return Some((Some(checksum), after_feed(rest)?));
    }
    Some((None, after_feed(text)?))
}

/// Parses the text's first line in one pass if the line is `DA:<line>,<count>` or `DA:<line>,<count>,<checksum>`, ends in a line
/// feed, and has only numbers below 2^64 without a minus. Most lines of a tracefile are such lines. Returns `None` for any other
/// first line, which the caller must cut off and parse by `read_line`.
#[inline(always)]
pub fn try_line_count(text: &[u8]) -> Option<LineCount<'_>>
    ensures says { IfSome result (λ f. BeginsWithLine text.now (Line f.line f.count (option_map (λ c. c.now) f.checksum)) f.rest.now) }
    ensures form { IfSome result (λ f. BeginsWithCountedLine text.now f.line f.count (option_map (λ c. c.now) f.checksum) f.rest.now) }
    ensures only { (line count : ℕ) (checksum : Option (List ℕ)) (rest : List ℕ) → BeginsWithCountedLine text.now line count checksum rest → MatchOption result ⊥ (λ f. (f.line ≡ line) × (f.count ≡ count) × (option_map (λ c. c.now) f.checksum ≡ checksum) × (f.rest.now ≡ rest)) }
{
    front_counted(text)
}

/// Parses the first line for `try_line_count`, from left to right.
#[inline(always)]
fn front_counted(text: &[u8]) -> Option<LineCount<'_>>
    ensures { option_map (λ f. ((f.line, f.count), (option_map (λ c. c.now) f.checksum, f.rest.now))) result ≡ counted_front text.now }
{
    let (line, rest) = small_field(after_count_key(text)?)?;
    let (count, rest) = small_number(rest)?;
    let (checksum, rest) = split_count_end(rest)?;
    Some(LineCount {
        line,
        count,
        checksum,
        rest,
    })
}

/// A `BRDA:` line, parsed from the front of a text, and the rest of the text.
#[derive(Clone, Copy)]
pub struct BranchLine<'a> {
    /// The branch.
    pub point: BranchPoint,
    /// How often the branch was taken, or `None` if the branch's block was never executed.
    pub taken: Option<u64>,
    /// The text after the first line.
    pub rest: &'a [u8],
}

/// Does what `read_field` does, but also returns `None` for a number of 2^64 or more.
pub fn small_field(text: &[u8]) -> Option<(u64, &[u8])>
    ensures { option_map (λ front. (front.0, front.1.now)) result ≡ small_front (field_at text.now) }
{
    let (number, rest) = read_field(text)?;
    Some((number.small()?, rest))
}

/// Does what `read_number` does, but also returns `None` for a number of 2^64 or more.
pub fn small_number(text: &[u8]) -> Option<(u64, &[u8])>
    ensures { option_map (λ front. (front.0, front.1.now)) result ≡ small_front (number_at text.now) }
{
    let (number, rest) = read_number(text)?;
    Some((number.small()?, rest))
}

/// Parses how often a branch was taken, at the front of the text. The field is a number below 2^64, or `-` for `None`. Returns the
/// field's value and the rest of the text, or `None` if the text doesn't begin with such a field.
#[inline(always)]
pub fn front_taken(text: &[u8]) -> Option<(Option<u64>, &[u8])>
    ensures { option_map (λ front. (front.0, front.1.now)) result ≡ taken_front text.now }
{
    if let [b'-', rest @ ..] = text {
        return Some((None, rest));
    }
    let (taken, rest) = small_number(text)?;
    Some((Some(taken), rest))
}

/// Parses the text's first line in one pass if the line is `BRDA:<line>,<block>,<branch>,<taken>`, ends in a line feed, and has
/// only numbers below 2^64; `<taken>` may also be `-`. Returns `None` for any other first line, which the caller must cut off and
/// parse by `read_line`.
#[inline(always)]
pub fn try_branch_line(text: &[u8]) -> Option<BranchLine<'_>>
    ensures says { IfSome result (λ f. BeginsWithLine text.now (Branch f.point.line f.point.block f.point.branch f.taken) f.rest.now) }
    ensures form { IfSome result (λ f. BeginsWithBranchLine text.now (branch_point_data f.point) f.taken f.rest.now) }
    ensures only { (point : BranchData) (taken : Option ℕ) (rest : List ℕ) → BeginsWithBranchLine text.now point taken rest → MatchOption result ⊥ (λ f. (branch_point_data f.point ≡ point) × (f.taken ≡ taken) × (f.rest.now ≡ rest)) }
{
    front_branch(text)
}

/// Parses the first line for `try_branch_line`, from left to right.
#[inline(always)]
fn front_branch(text: &[u8]) -> Option<BranchLine<'_>>
    ensures { option_map (λ f. ((branch_point_data f.point, f.taken), f.rest.now)) result ≡ branch_front text.now }
{
    let (line, rest) = small_field(strip_key(text, b"BRDA:")?)?;
    let (block, rest) = small_field(rest)?;
    let (branch, rest) = small_field(rest)?;
    let (taken, rest) = front_taken(rest)?;
    let rest = after_feed(rest)?;
    let point = BranchPoint {
        line,
        block,
        branch,
    };
    Some(BranchLine { point, taken, rest })
}
