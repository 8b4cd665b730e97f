//! A box as an address.
ghost use Rattle.std.specs.Prelude.{◌≡◌};
ghost use Rattle.filter_c.specs.Handles.{block_owns};

use std::alloc::Global;
use std::marker::Model;

/// The block of a box: it owns the value that is in there, and the right to free the block.
pub struct Block<T> {
    pub(crate) at: *mut T,
    pub ghost value: { T },
}

impl<T> Model for Block<T> {
    ghost also_owns = { λ block. block_owns T.row block.at block.value };
}

impl<T> Block<T> {
    /// That of a box.
    pub fn of(boxed: Box<T>) -> Block<T>
    where
        T: Drop,
        ensures { result.value ≡ boxed.value }
    {
        Block {
            at: Box::into_raw(boxed),
        }
    }

    /// The box that it is of.
    pub fn into_box(self, alloc: Global) -> Box<T>
        ensures { result.value ≡ self.value }
    {
        let Block { at } = self;
        unsafe { Box::from_raw(alloc, at) }
    }
}
