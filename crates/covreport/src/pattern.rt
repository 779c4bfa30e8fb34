//! Shell patterns for paths. A pattern matches a whole path:
//!
//! `*` matches any run of bytes, also `/`. `?` matches any byte. `\` and a byte match this byte. `[abc]` and `[a-z]` match a byte
//! of a set, `[!abc]` matches a byte outside of the set. Any other byte matches itself. So do a `\` at the end of the pattern, and
//! a `[` that no `]` closes after at least one byte.

ghost use Rattle.std.specs.Prelude.{◌≡◌};
ghost use Rattle.covreport.specs.Pattern.{matches as pattern_matches};

mod parts;
pub(crate) mod steps;

use steps::Matcher;

/// Whether the pattern matches the whole path. Never allocates. Backtracks only to the last star.
pub fn matches(pattern: &[u8], path: &[u8]) -> bool
    ensures { result ≡ pattern_matches pattern.now path.now }
{
    let mut matcher = Matcher::new(pattern, path);
    loop {
        if let Some(answer) = matcher.step() {
            return answer;
        }
    }
}
