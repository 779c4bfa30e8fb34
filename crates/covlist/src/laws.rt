//! Laws about the definitions that this crate's contracts cite. Each function does nothing: its contract is the law.

ghost use Rattle.std.specs.Prelude.{◌≡◌, ℕ, List};
ghost use Rattle.covlist.specs.Shown.{shown_name};

/// Different names are shown differently.
pub fn different_names_are_shown_differently()
    ensures { (one other : List ℕ) → shown_name one ≡ shown_name other → one ≡ other }
{}
