//! A verified filter that C holds by a pointer.
//!
//! **A handle is a struct of one pointer, and a ghost value says what it owns.** C has it by value or by its address, and no pointer is returned:
//! an exported function may not return one, nor take a struct with a type parameter, an enum, a `&str`, or a type behind whose `&` memory is
//! shared, as a `Vec` or a `Box` is. So the box crosses as an address without a type, and five functions, proved by hand over the separation logic
//! below contracts, take it apart and make it again: `FilterHandle::none`, `of_block` and `into_block`, and `Block::of` and `into_box`.
//!
//! **Each thread has a handle of its own.** The box holds one owner of an `Arc`. With one handle for many calls at once `run` would require memory
//! that the kit's rules for C have a caller treat as what a `&mut` points to; and a handle behind a `&` could not be read, since nothing shares
//! what it owns. `run` takes the box out and puts it back.
//!
//! **A handle that holds no filter is the caller's fault**, and no answer: to compare the pointer with null each run would take a test, and the
//! proof of it one more walk.
ghost use Rattle.std.specs.Prelude.{◌≡◌, ◌≢◌, Option, Some, None};
ghost use Rattle.filter_c.specs.Handles.{handle_owns};
ghost use Rattle.filter_c.specs.declared.owner.Owner.{Owner};
ghost use Rattle.filter_c.specs.contracts.owner.Owner.{the_row as owner_row};

use crate::block::Block;
use crate::owner::Owner;
use std::alloc::Global;
use std::marker::Model;
use std::ptr::null_mut;

/// One owner of a verified filter in a box of its own, or none and a null pointer.
#[repr(C)]
#[derive(Drop)]
pub struct FilterHandle {
    at: *mut u8,
    pub ghost value: { Option Owner },
}

impl Model for FilterHandle {
    ghost also_owns = { λ f. handle_owns owner_row f.at f.value };
}

/// It may go to another thread.
unsafe impl Send for FilterHandle {}

impl FilterHandle {
    /// No filter.
    pub fn none() -> FilterHandle
        ensures { result.value ≡ None }
    {
        FilterHandle { at: null_mut() }
    }

    /// The handle of a box.
    pub fn of(boxed: Box<Owner>) -> FilterHandle
        ensures { result.value ≡ Some boxed.value }
    {
        FilterHandle::of_block(Block::of(boxed))
    }

    /// The box of a handle.
    pub fn into_box(self, alloc: Global) -> Box<Owner>
        requires { self.value ≢ None }
        ensures { self.value ≡ Some result.value }
    {
        self.into_block().into_box(alloc)
    }

    fn of_block(block: Block<Owner>) -> FilterHandle
        ensures { result.value ≡ Some block.value }
    {
        let Block { at } = block;
        FilterHandle { at: at.cast() }
    }

    fn into_block(self) -> Block<Owner>
        requires { self.value ≢ None }
        ensures { self.value ≡ Some result.value }
    {
        let FilterHandle { at } = self;
        Block { at: at.cast() }
    }
}
