//! Makes columns for the same pages with other staged values.

ghost use Rattle.std.specs.Prelude.{◌≡◌, IfOk, map};
ghost use Rattle.covmap.specs.Images.{column_image};

use crate::key::Image;
use crate::slots::page::images::value_images;
use crate::slots::staged::StagedColumns;
use std::alloc::{AllocError, Allocator};

impl<V, A: Allocator + Copy> StagedColumns<V, A> {
    /// Returns columns for the same pages, with the images of the staged values.
    pub(crate) fn images<W: Image<V>>(&self, alloc: A) -> Result<StagedColumns<W, A>, AllocError>
        ensures { IfOk result (λ images. images ≡ map (column_image W.image) self.now) }
    {
        let columns = column_images(&self.columns, alloc)?;
        Ok(StagedColumns { columns })
    }
}

/// The images of the columns, each with the number of its page. Reserves capacity for exactly `columns.len()` images.
fn column_images<V, W: Image<V>, A: Allocator + Copy>(
    columns: &[(usize, Vec<Option<V>, A>)],
    alloc: A,
) -> Result<Vec<(usize, Vec<Option<W>, A>), A>, AllocError>
    ensures { IfOk result (λ images. map (λ column. (column.0, column.1.items)) images.items ≡ map (λ column. column_image W.image (column.0, column.1.items)) columns.now) }
{
    let mut images = Vec::with_capacity(alloc, columns.len())?;
    for column in columns {
        images.push((column.0, value_images(&column.1, alloc)?))?;
    }
    Ok(images)
}
