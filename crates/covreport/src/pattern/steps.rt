//! Matches a path against a pattern, step by step.

ghost use Rattle.std.specs.Prelude.{◌≡◌, ◌+◌, ◌*◌, ◌≤◌, false, ◌∷◌, length, MatchOption};
ghost use Rattle.covreport.specs.Pattern.{OneByte, matches as pattern_matches, parts_of};
ghost use Rattle.covreport.specs.PatternParts.{set_data};
ghost use Rattle.covreport.specs.PatternSteps.{fits_at, answer_of, steps_left, GoesOn, Proceeds};

use crate::pattern::parts::{ByteSet, Part, read_head};

/// What remains to be matched of a pattern and of a path.
#[derive(Clone, Copy)]
struct Position<'a> {
    pattern: &'a [u8],
    path: &'a [u8],
}

/// The state of a match. The match backtracks only to the last star. The parts before this star match as early in the path as
/// possible: a later match would only leave less of the path for the star and the parts after it.
#[derive(Drop)]
pub(crate) struct Matcher<'a> {
    here: Position<'a>,
    /// The rest of the pattern after the last star, and the rest of the path after the bytes that this star matches so far.
    star: Option<Position<'a>>,
}

impl<'a> Matcher<'a> {
    /// Begins to match the whole path against the pattern.
    pub(crate) fn new(pattern: &'a [u8], path: &'a [u8]) -> Matcher<'a>
        ensures answer { answer_of result ≡ pattern_matches pattern.now path.now }
        ensures goes_on { GoesOn result }
        ensures steps { steps_left result ≡ (length pattern.now + 1) * (length path.now + 1) }
    {
        Matcher {
            here: Position { pattern, path },
            star: None,
        }
    }

    /// Does one step. Returns the result once it is known. A match takes at most (m + 1) * (n + 1) steps for a pattern of m bytes
    /// and a path of n bytes.
    pub(crate) fn step(&mut self) -> Option<bool>
        requires { GoesOn self.old }
        ensures { MatchOption result (Proceeds self.old self.new) (λ answer. answer ≡ answer_of self.old) }
    {
        let [first, rest @ ..] = self.here.pattern else {
            return self.end();
        };
        let head = read_head(*first, rest);
        match head.part {
            Part::AnyRun => {
                self.here.pattern = head.rest;
                self.star = Some(self.here);
                None
            }
            Part::OneByte(set) => self.take_byte(set, head.rest),
        }
    }

    /// Does a step at the end of the pattern. Returns `true` if the path ends too, and otherwise backtracks.
    fn end(&mut self) -> Option<bool>
        requires goes_on { GoesOn self.old }
        requires at_end { length self.old.here.pattern.now ≡ 0 }
        ensures { MatchOption result (Proceeds self.old self.new) (λ answer. answer ≡ answer_of self.old) }
    {
        if self.here.path.is_empty() {
            return Some(true);
        }
        self.go_back()
    }

    /// Matches the path's next byte against the set, and continues with `rest`, the pattern after the set. Backtracks if there is
    /// no next byte, or the set doesn't have it.
    fn take_byte(&mut self, set: ByteSet<'a>, rest: &'a [u8]) -> Option<bool>
        requires goes_on { GoesOn self.old }
        requires parts { parts_of self.old.here.pattern.now ≡ OneByte (set_data set) ∷ parts_of rest.now }
        requires less { length rest.now + 1 ≤ length self.old.here.pattern.now }
        ensures { MatchOption result (Proceeds self.old self.new) (λ answer. answer ≡ answer_of self.old) }
    {
        match self.here.path {
            [byte, path @ ..] if set.takes(*byte) => {
                self.here = Position {
                    pattern: rest,
                    path,
                };
                None
            }
            _ => self.go_back(),
        }
    }

    /// Lets the last star match one more byte of the path, and goes on after this byte. Returns `false` if the pattern has had no
    /// star yet, or the path has no such byte.
    fn go_back(&mut self) -> Option<bool>
        requires { fits_at self.old.here ≡ false }
        ensures { MatchOption result (Proceeds self.old self.new) (λ answer. answer ≡ answer_of self.old) }
    {
        let Some(star) = self.star else {
            return Some(false);
        };
        let [_, path @ ..] = star.path else {
            return Some(false);
        };
        self.here = Position {
            pattern: star.pattern,
            path,
        };
        self.star = Some(self.here);
        None
    }
}
