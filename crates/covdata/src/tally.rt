//! Tallies of coverage points.

ghost use Rattle.std.specs.Prelude.{◌≡◌, ◌+◌, ◌<◌, ◌≤◌, ◌^◌, if◌then◌else◌};

/// The number of coverage points of one kind (functions, branches or lines), and how many of these points have a count above 0.
#[derive(Clone, Copy, Debug, PartialEq, Eq)]
pub struct Tally {
    /// The number of points.
    pub found: u64,
    /// The number of points with an execution count above 0.
    pub hit: u64,
    ghost fewer: { hit ≤ found },
}

impl Tally {
    /// The tally of no points.
    pub const NONE: Tally = Tally { found: 0, hit: 0 };

    /// The tally with one more point, which is hit if `is_hit` is true.
    pub fn and(self, is_hit: bool) -> Tally
        requires { self.found + 1 < 2 ^ 64 }
        ensures found { result.found ≡ self.found + 1 }
        ensures hit { result.hit ≡ self.hit + (if is_hit then 1 else 0) }
    {
        Tally {
            found: self.found + 1,
            hit: self.hit + u64::from(is_hit),
        }
    }
}
