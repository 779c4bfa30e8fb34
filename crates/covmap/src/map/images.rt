//! Makes a map with the same keys and other values.

ghost use Rattle.std.specs.Prelude.{◌≡◌, IfOk, map};

use crate::key::{CopyKey, Image};
use crate::map::StagedMap;
use std::alloc::{AllocError, Allocator};

impl<K: CopyKey<A> + Drop, V, A: Allocator + Copy> StagedMap<K, V, A> {
    /// Makes a map with the same keys, and with the images of the committed and staged values.
    ///
    /// Copies whole pages and columns, so it looks up no key and stages nothing anew. The new map uses no more memory than its keys
    /// and values need.
    ///
    /// # Errors
    ///
    /// `AllocError` if an allocation failed.
    pub fn images<W: Image<V>>(&self, alloc: A) -> Result<StagedMap<K, W, A>, AllocError>
        ensures committed { IfOk result (λ images. images.committed ≡ map (λ pair. (pair.0, W.image pair.1)) self.now.committed) }
        ensures staged { IfOk result (λ images. images.staged ≡ map (λ pair. (pair.0, W.image pair.1)) self.now.staged) }
    {
        let slots = self.slots.images(alloc)?;
        let staged = self.staged.images(alloc)?;
        Ok(StagedMap {
            slots,
            staged,
            cursor: self.cursor,
        })
    }
}
