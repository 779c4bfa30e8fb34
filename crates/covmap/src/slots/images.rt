//! Makes slots with the same keys and other values.

ghost use Rattle.std.specs.Prelude.{◌≡◌, IfOk, map};
ghost use Rattle.covmap.specs.Images.{page_image};

use crate::key::{CopyKey, Image};
use crate::slots::Slots;
use crate::slots::page::Page;
use std::alloc::{AllocError, Allocator};

impl<K: CopyKey<A> + Drop, V, A: Allocator + Copy> Slots<K, V, A> {
    /// Makes slots with the same keys at the same places, and with the images of the values.
    pub(crate) fn images<W: Image<V>>(&self, alloc: A) -> Result<Slots<K, W, A>, AllocError>
        ensures { IfOk result (λ images. images ≡ map (page_image W.image) self.now) }
    {
        let pages = page_images(&self.pages, alloc)?;
        Ok(Slots { pages })
    }
}

/// The images of the pages. Reserves capacity for exactly `pages.len()` images.
fn page_images<K: CopyKey<A> + Drop, V, W: Image<V>, A: Allocator + Copy>(
    pages: &[Page<K, V, A>],
    alloc: A,
) -> Result<Vec<Page<K, W, A>, A>, AllocError>
    ensures { IfOk result (λ images. images.items ≡ map (page_image W.image) pages.now) }
{
    let mut images = Vec::with_capacity(alloc, pages.len())?;
    for page in pages {
        images.push(page.image(alloc)?)?;
    }
    Ok(images)
}
