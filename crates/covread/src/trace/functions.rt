//! The functions of a section.

ghost use Rattle.std.specs.Prelude.{◌≡◌, ℕ, nat_lt, ◌++◌, ◌∷◌, [], List, Option, OnOk, option_map};
ghost use Rattle.covdata.specs.Records.{LineData, FuncStart};
ghost use Rattle.covread.specs.Reads.{start_in};
ghost use Rattle.covread.specs.TraceFunctions.{AreFunctions, found_by, named};

use covdata::Memory;
use std::alloc::Allocator;
use std::collections::BTreeMap;

/// A function that has a start line.
#[derive(Clone, Copy, Drop)]
pub struct Function {
    /// The function's least start line.
    pub start: u64,
    /// Whether a count of the function, so far, is above 0.
    pub is_hit: bool,
}

/// The functions with a start line, by name.
pub type Functions<'a, A> = BTreeMap<&'a [u8], Function, A>;

/// The function that a count belongs to.
#[derive(Clone, Copy, Drop)]
pub struct Found {
    /// The function's least start line.
    pub start: u64,
    /// Whether the count is the function's first count above 0.
    pub is_first_hit: bool,
}

/// Adds a start line of the function with this name. Only the least start line is stored.
pub fn take_start<'a, A: Allocator + Copy>(
    functions: &mut Functions<'a, A>,
    name: &'a [u8],
    line: u64,
) -> Result<(), Memory>
    ensures { OnOk result ((before : List LineData) → AreFunctions functions.old (λ other. start_in other before) [] → AreFunctions functions.new (λ other. start_in other (before ++ FuncStart line name.now ∷ [])) []) }
{
    let first = Function {
        start: line,
        is_hit: false,
    };
    match functions.insert(name, first)? {
        Some(before) if starts_before(&before, line) => {
            functions.insert(name, before)?;
        }
        Some(_) => {}
        None => {}
    }
    Ok(())
}

/// Whether the function starts before the line.
fn starts_before(function: &Function, line: u64) -> bool
    ensures { result ≡ nat_lt function.now.start line }
{
    function.start < line
}

/// Adds a count of the function with this name, and returns the function. Returns `None` if the function has no start line.
pub fn count_function<'a, A: Allocator>(
    functions: &mut Functions<'a, A>,
    name: &'a [u8],
    is_hit: bool,
) -> Option<Found>
    ensures found { (starts : List ℕ → Option ℕ) (names : List (List ℕ)) → AreFunctions functions.old starts names → result ≡ option_map (found_by names name.now is_hit) (starts name.now) }
    ensures marks { (starts : List ℕ → Option ℕ) (names : List (List ℕ)) → AreFunctions functions.old starts names → AreFunctions functions.new starts (names ++ named name.now is_hit (starts name.now)) }
{
    match functions.get_mut(name) {
        Some(function) => {
            let is_first_hit = is_hit && !function.is_hit;
            if is_hit {
                function.is_hit = true;
            }
            Some(Found {
                start: function.start,
                is_first_hit,
            })
        }
        None => None,
    }
}
