//! An allocator that refuses one allocation.
use std::alloc::{AllocError, Allocator};
use std::cell::Cell;

/// An allocator that passes each call on to another allocator, but refuses one allocation.
pub struct Refusing<B: Allocator> {
    inner: B,
    left: Cell<u64>,
}

impl<B: Allocator> Refusing<B> {
    /// Gives an allocator that refuses the n-th allocation, counted from 1. With 0 it refuses none.
    pub fn new(inner: B, n: u64) -> Refusing<B> {
        Refusing {
            inner,
            left: Cell::new(n),
        }
    }

    /// Whether that allocation was asked for. It is always true if `n` is 0.
    pub fn has_refused(&self) -> bool {
        self.left.get() == 0
    }
}

impl<B: Allocator> Drop for Refusing<B> {
    fn drop(self) {
        let Self { inner: _, left: _ } = self;
    }
}

fn refuses(left: &Cell<u64>) -> bool {
    let n = left.get();
    left.set(n.saturating_sub(1));
    n == 1
}

unsafe impl<B: Allocator> Allocator for Refusing<B> {
    ghost dealloc_token = { λ heap ty ptr. B.dealloc_token heap.inner ty ptr };

    fn allocate(&self, size: usize, align: usize) -> Result<*mut u8, AllocError> {
        if refuses(&self.left) {
            return Err(AllocError);
        }
        self.inner.allocate(size, align)
    }

    unsafe fn deallocate(&self, ptr: *mut u8, size: usize, align: usize) {
        self.inner.deallocate(ptr, size, align);
    }
}
