//! Rules for the paths of source files.

ghost use Rattle.std.specs.Prelude.{◌≡◌, ◌||◌, IfOk, option_map};
ghost use Rattle.covpaths.specs.Paths.{ends_at_slash as ends_with_slash, is_apart as is_apart_rest, rest_under as rest_under_old};

use covdata::{Bytes, Memory, good_test};
use std::alloc::Global;
use std::marker::Model;

/// A rule for paths: a source file under `old` gets a path under `new`. Contracts see both. `old` isn't empty, `new` fits into a line,
/// and both end in a slash or neither does, unless `new` is empty.
#[derive(Drop)]
pub struct PathRule<'a> {
    old: &'a [u8],
    new: &'a [u8],
}

impl<'a> Model for PathRule<'a> {
    ghost use Rattle.covpaths.specs.Paths.{IsGoodRule, RuleData};

    ghost Value = { RuleData };

    ghost view = { λ r. record { old = r.old.now; new = r.new.now } };

    ghost invariant = { λ r. IsGoodRule (record { old = r.old.now; new = r.new.now }) };
}

/// Why a word is no rule.
#[derive(Clone, Copy, Debug, PartialEq, Eq)]
pub enum RuleFault {
    /// The word has no `=`.
    NoSign,
    /// Nothing stands before the first `=`.
    NoOld,
    /// What stands after the first `=` has a line feed, or ends in a carriage return.
    BadNew,
    /// Only one of both parts ends in a slash.
    Slashes,
}

impl<'a> PathRule<'a> {
    ghost use Rattle.std.specs.Prelude.{◌≡◌, Some, IfOk, IfErr};
    ghost use Rattle.covpaths.specs.Paths.{IsGoodRule, IsRuleFault, mapped_by, rule_of};

    /// The rule that `word` gives, as `OLD=NEW`. `OLD` ends before the first `=`.
    pub fn of(word: &'a str) -> Result<PathRule<'a>, RuleFault>
        ensures rule { IfOk result (λ rule. rule_of word.now ≡ Some rule) }
        ensures good { IfOk result IsGoodRule }
        ensures fault { IfErr result (IsRuleFault word.now) }
    {
        let Some((old, new)) = word.split_once('=') else {
            return Err(RuleFault::NoSign);
        };
        let (old, new) = (old.as_bytes(), new.as_bytes());
        if old.is_empty() {
            return Err(RuleFault::NoOld);
        }
        if !good_test(new) {
            return Err(RuleFault::BadNew);
        }
        if !new.is_empty() && ends_at_slash(old) != ends_at_slash(new) {
            return Err(RuleFault::Slashes);
        }
        Ok(PathRule { old, new })
    }

    /// The beginning of paths to which the rule applies.
    pub fn old(&self) -> &'a [u8]
        ensures { result.now ≡ self.now.old }
    {
        self.old
    }

    /// What replaces `old`.
    pub fn new(&self) -> &'a [u8]
        ensures { result.now ≡ self.now.new }
    {
        self.new
    }

    /// The path that the rule gives a source file, or `None` if it doesn't apply to `path`, also if nothing of the path would be left.
    pub(crate) fn map(&self, alloc: Global, path: &[u8]) -> Result<Option<Bytes>, Memory>
        ensures { IfOk result (λ mapped. mapped ≡ mapped_by self.now path.now) }
    {
        let Some(rest) = rest_under(self.old, path) else {
            return Ok(None);
        };
        if self.new.is_empty() && rest.is_empty() {
            return Ok(None);
        }
        let mut mapped = Bytes::of(alloc, self.new)?;
        mapped.append(rest)?;
        Ok(Some(mapped))
    }
}

/// What follows `old` in `path`, or `None` unless `old` is the path or ends at a slash in it.
pub fn rest_under<'p>(old: &[u8], path: &'p [u8]) -> Option<&'p [u8]>
    ensures { option_map (λ rest. rest.now) result ≡ rest_under_old old.now path.entry.now }
{
    let Some(rest) = path.strip_prefix(old) else {
        return None;
    };
    if are_apart(old, rest) {
        Some(rest)
    } else {
        None
    }
}

/// Whether a name ends between `old` and `rest`, which make up a path.
fn are_apart(old: &[u8], rest: &[u8]) -> bool
    ensures { result ≡ (is_apart_rest rest.now || ends_with_slash old.now) }
{
    is_apart(rest) || ends_at_slash(old)
}

/// Whether `rest` is nothing, or begins with a slash.
fn is_apart(rest: &[u8]) -> bool
    ensures { result ≡ is_apart_rest rest.now }
{
    match rest.split_first() {
        Some((byte, _)) => *byte == b'/',
        None => true,
    }
}

/// Whether the last byte is a slash.
fn ends_at_slash(path: &[u8]) -> bool
    ensures { result ≡ ends_with_slash path.now }
{
    match path.split_last() {
        Some((byte, _)) => *byte == b'/',
        None => false,
    }
}
