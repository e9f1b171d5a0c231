//! An allocator without memory, for lists that never leave their own places.

ghost use Rattle.row_order.specs.NoBlock.{no_block};

use std::alloc::{AllocError, Allocator};

/// The null allocator: it gives no memory. So a `SmallVec` over it keeps its values in itself, and takes none.
#[derive(Clone, Copy, Drop)]
pub struct NullAllocator;

unsafe impl Allocator for NullAllocator {
    ghost dealloc_token = { no_block };

    fn allocate(&self, _size: usize, _align: usize) -> Result<*mut u8, AllocError> {
        Err(AllocError)
    }

    unsafe fn deallocate(&self, _block: *mut u8, _size: usize, _align: usize) {}

    unsafe fn grow<T>(
        &self,
        _block: *mut T,
        _len: usize,
        _old_cap: usize,
        _new_cap: usize,
    ) -> Result<*mut T, AllocError> {
        Err(AllocError)
    }

    unsafe fn shrink<T>(
        &self,
        _block: *mut T,
        _len: usize,
        _old_cap: usize,
        _new_cap: usize,
    ) -> Result<*mut T, AllocError> {
        Err(AllocError)
    }
}
