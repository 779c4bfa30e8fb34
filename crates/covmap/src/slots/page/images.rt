//! Makes a page with the same keys and other values.

ghost use Rattle.std.specs.Prelude.{◌≡◌, IfOk, map, option_map};
ghost use Rattle.covmap.specs.Images.{page_image};

use crate::key::{CopyKey, Image, image_of};
use crate::slots::page::Page;
use std::alloc::{AllocError, Allocator};

impl<K: CopyKey<A> + Drop, V, A: Allocator + Copy> Page<K, V, A> {
    /// Makes a page with the same keys in the same slots, and with the images of the values. The new page uses memory for values
    /// only if `self` does.
    pub(crate) fn image<W: Image<V>>(&self, alloc: A) -> Result<Page<K, W, A>, AllocError>
        ensures { IfOk result (λ image. image ≡ page_image W.image self.now) }
    {
        let keys = copy_keys(&self.keys, alloc)?;
        let values = value_images(&self.values, alloc)?;
        Ok(Page { keys, values })
    }
}

/// Copies the keys. Reserves capacity for exactly `keys.len()` keys.
fn copy_keys<K: CopyKey<A> + Drop, A: Allocator + Copy>(
    keys: &[K],
    alloc: A,
) -> Result<Vec<K, A>, AllocError>
    ensures { IfOk result (λ copies. copies.items ≡ keys.now) }
{
    let mut copies = Vec::with_capacity(alloc, keys.len())?;
    for key in keys {
        copies.push(key.copy_key(alloc)?)?;
    }
    Ok(copies)
}

/// The images of the values. An empty value stays empty. Reserves capacity for exactly `values.len()` images.
pub(crate) fn value_images<V, W: Image<V>, A: Allocator>(
    values: &[Option<V>],
    alloc: A,
) -> Result<Vec<Option<W>, A>, AllocError>
    ensures { IfOk result (λ images. images.items ≡ map (option_map W.image) values.now) }
{
    let mut images = Vec::with_capacity(alloc, values.len())?;
    for value in values {
        images.push(image_of(value))?;
    }
    Ok(images)
}
