//! Laws about the definitions that this crate's contracts cite. Each function does nothing: its contract is the law.

ghost use Rattle.std.specs.Prelude.{◌≡◌, ◌↔◌, ◌≢◌, ◌==◌, ℕ, true, false, ◌&&◌, List, [], ◌∷◌, ◌++◌, ◌+◌, ◌*◌, ◌<◌, ◌≤◌, not, All};
ghost use Rattle.std.specs.List.Sorted.{IsPermutation, IsSorted};
ghost use Rattle.covtable.specs.Content.{FunctionValueData};
ghost use Rattle.covreport.specs.Pattern.{matches, in_body};
ghost use Rattle.covreport.specs.Report.{by_start, function_cmp};
ghost use Rattle.covreport.specs.Summary.{tenths_of};

/// A pattern matches a path if its first part matches the front of the path, and the rest of the pattern matches the rest of the
/// path. The empty pattern matches only the empty path. `?` matches any byte. `\` matches the byte after it in the pattern, or a
/// `\` if the pattern ends there. A byte other than `*`, `?`, `[` and `\` matches itself. Each part except a star needs a byte.
pub fn a_pattern_begins_with_its_head()
    ensures nothing { (matches [] [] ≡ true) × ((b : ℕ) (path : List ℕ) → matches [] (b ∷ path) ≡ false) }
    ensures any { (rest path : List ℕ) (b : ℕ) → matches (63 ∷ rest) (b ∷ path) ≡ matches rest path }
    ensures quoted { (rest path : List ℕ) (b : ℕ) → matches (92 ∷ b ∷ rest) (b ∷ path) ≡ matches rest path }
    ensures quoted_other { (rest path : List ℕ) (b other : ℕ) → other ≢ b → matches (92 ∷ b ∷ rest) (other ∷ path) ≡ false }
    ensures last { (path : List ℕ) → (matches (92 ∷ []) path ≡ true) ↔ (path ≡ 92 ∷ []) }
    ensures itself { (rest path : List ℕ) (first b : ℕ) → first ≢ 42 → first ≢ 63 → first ≢ 91 → first ≢ 92 → matches (first ∷ rest) (b ∷ path) ≡ (b == first && matches rest path) }
    ensures needs_a_byte { (rest : List ℕ) (first : ℕ) → first ≢ 42 → matches (first ∷ rest) [] ≡ false }
{}

/// A star matches any run of bytes. A pattern that begins with a star matches a path if and only if the rest of the pattern matches
/// the path without some run of bytes at its front.
pub fn a_star_takes_any_run()
    ensures { (rest path : List ℕ) → (matches (42 ∷ rest) path ≡ true) ↔ ((run end : List ℕ) × (path ≡ run ++ end) × (matches rest end ≡ true)) }
{}

/// A set ends at the first `]` after the first byte of its body. `[BODY]` matches a byte of the body, `[!BODY]` any other byte.
pub fn a_set_takes_its_bytes()
    ensures set { (first b : ℕ) (body rest path : List ℕ) → first ≢ 33 → All (λ c. c ≢ 93) body → matches (91 ∷ first ∷ (body ++ 93 ∷ rest)) (b ∷ path) ≡ (in_body b (first ∷ body) && matches rest path) }
    ensures none { (first b : ℕ) (body rest path : List ℕ) → All (λ c. c ≢ 93) body → matches (91 ∷ 33 ∷ first ∷ (body ++ 93 ∷ rest)) (b ∷ path) ≡ (not (in_body b (first ∷ body)) && matches rest path) }
{}

/// An unclosed `[` matches itself. It is unclosed if no `]` follows, or only one that would be the first byte of the body.
pub fn an_unclosed_set_is_plain()
    ensures last { (b : ℕ) (path : List ℕ) → matches (91 ∷ []) (b ∷ path) ≡ (b == 91 && matches [] path) }
    ensures set { (first b : ℕ) (body path : List ℕ) → first ≢ 33 → All (λ c. c ≢ 93) body → matches (91 ∷ first ∷ body) (b ∷ path) ≡ (b == 91 && matches (first ∷ body) path) }
    ensures mark { (b : ℕ) (path : List ℕ) → matches (91 ∷ 33 ∷ []) (b ∷ path) ≡ (b == 91 && matches (33 ∷ []) path) }
    ensures none { (first b : ℕ) (body path : List ℕ) → All (λ c. c ≢ 93) body → matches (91 ∷ 33 ∷ first ∷ body) (b ∷ path) ≡ (b == 91 && matches (33 ∷ first ∷ body) path) }
{}

/// Functions are printed in the order of their start lines. Functions with the same start line are printed in the order of their
/// names. No function is left out, added or repeated.
pub fn functions_are_printed_by_start()
    ensures { (functions : List FunctionValueData) → IsSorted function_cmp (by_start functions) × IsPermutation functions (by_start functions) }
{}

/// A printed rate differs from the true rate by less than one tenth of a percent. The printed rate is 100.0 percent if and only if
/// every point is hit, and 0.0 percent if and only if no point is hit.
pub fn rates_are_told_truly()
    ensures near { (hit found : ℕ) → 0 < found → hit ≤ found → (found * tenths_of hit found < 1000 * hit + found) × (1000 * hit < found * tenths_of hit found + found) }
    ensures all { (hit found : ℕ) → 0 < found → hit ≤ found → (tenths_of hit found ≡ 1000) ↔ (hit ≡ found) }
    ensures none { (hit found : ℕ) → 0 < found → hit ≤ found → (tenths_of hit found ≡ 0) ↔ (hit ≡ 0) }
{}
