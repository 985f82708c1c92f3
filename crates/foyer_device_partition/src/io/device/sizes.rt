//! The sizes of a device's partitions.
ghost use Rattle.std.specs.Prelude.{◌≡◌, ◌≤◌, ◌<◌, ◌^◌, ℕ, List, [], ◌∷◌, ◌++◌, Some, OnOk, OnErr, length, slice_get};
ghost use Rattle.foyer_device_partition.specs.Extent.{total_size};
ghost use Rattle.foyer_device_page.specs.declared.error.Error.TheVariants as error;

use foyer_device_page::error::Result;
use std::alloc::Allocator;
use std::marker::Model;

/// The sizes of a device's partitions, and their sum.
#[derive(Drop)]
pub(super) struct Sizes<A: Allocator> {
    sizes: Vec<usize, A>,
    total: usize,
}

impl<A: Allocator> Model for Sizes<A> {
    ghost use Rattle.std.specs.Prelude.{◌≡◌, ◌≤◌, ◌^◌, ℕ, List, length};
    ghost use Rattle.foyer_device_partition.specs.Extent.{total_size};

    ghost Value = { List ℕ };

    ghost view = { λ s. s.sizes.items };

    ghost invariant = { λ s. (s.total ≡ total_size s.sizes.items)
        × (length s.sizes.items ≤ 2 ^ 32) };
}

impl<A: Allocator> Sizes<A> {
    pub(super) fn new(alloc: A) -> Sizes<A>
        ensures { result ≡ [] }
    {
        Sizes {
            sizes: Vec::new(alloc),
            total: 0,
        }
    }

    // Their sum, saturating.
    pub(super) fn total(&self) -> usize
        ensures { result ≡ total_size self.now }
    {
        self.total
    }

    pub(super) fn len(&self) -> usize
        ensures count { result ≡ length self.now }
        ensures few { length self.now ≤ 2 ^ 32 }
    {
        let _ = &self.total;
        self.sizes.len()
    }

    pub(super) fn size(&self, id: u32) -> usize
        requires { id < length self.now }
        ensures { slice_get self.now id ≡ Some result }
    {
        self.sizes[id as usize]
    }

    // Appends a size. Error: Memory.
    pub(super) fn push(&mut self, size: usize) -> Result<()>
        requires { length self.old < 2 ^ 32 }
        ensures pushed { OnOk result (self.new ≡ self.old ++ size ∷ []) }
        ensures kept { OnErr result (self.new ≡ self.old) }
        ensures memory { OnErr result (result ≡ Err error.Memory) }
    {
        self.sizes.push(size)?;
        self.total = self.total.saturating_add(size);
        Ok(())
    }
}
