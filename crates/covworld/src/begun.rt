//! What a begun file waits for.

use crate::named_file::{PlacedFile, Target};

/// What a begun file waits for.
#[derive(Drop)]
pub(crate) enum Begun {
    /// Nothing: bytes go straight to the file that has the name.
    InPlace(PlacedFile),
    /// A new file will replace what the name means.
    Beside(Target),
}
