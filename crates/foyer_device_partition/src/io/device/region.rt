//! Partitions, one after another, in the bytes of a file.
ghost use Rattle.std.specs.Prelude.{◌≡◌, ◌⊎◌, ◌+◌, ◌-◌, ◌*◌, ◌/◌, ◌<◌, ◌≤◌, ◌^◌, ◌↔◌, ℕ, List, [], ◌∷◌, ◌++◌, Some, IsTrue, IfOk, IfErr, OnErr, MatchResult, length, slice_get, nat_lt, nat_le, ◌&&◌, sum};
ghost use Rattle.foyer_device_partition.specs.Extent.{IsPartitionSize, AreDisjoint, LieInFiles, EndBy, laid_from, total_size};
ghost use Rattle.foyer_device_partition.specs.Region.{lacks_space, has_all_numbers};
ghost use Rattle.foyer_device_partition.specs.Slot.{extent_of};
ghost use Rattle.foyer_device_page.specs.declared.error.Error.TheVariants as error;

use super::MAX_PARTITIONS;
use super::slot::Slot;
use foyer_device_page::error::{Error, Result};
use foyer_device_page::io::bytes::PAGE;
use std::alloc::Allocator;
use std::marker::Model;

/// The partitions of one file, each of which begins where the one before ends.
#[derive(Drop)]
pub(super) struct Region<A: Allocator> {
    capacity: usize,
    allocated: usize,
    slots: Vec<Slot, A>,
}

impl<A: Allocator> Model for Region<A> {
    ghost use Rattle.std.specs.Prelude.{◌≡◌, ◌≤◌, ◌^◌, length, map, sum};
    ghost use Rattle.foyer_device_partition.specs.Extent.{laid_from};
    ghost use Rattle.foyer_device_partition.specs.Region.{Region};
    ghost use Rattle.foyer_device_partition.specs.Slot.{extent_of, size_of};

    ghost Value = { Region };

    ghost view = { λ r. record { room = r.capacity; sizes = map size_of r.slots.items } };

    ghost invariant = { λ r. (map extent_of r.slots.items ≡ laid_from 0 (map size_of r.slots.items))
        × (r.allocated ≡ sum (map size_of r.slots.items)) × (r.allocated ≤ r.capacity)
        × (length r.slots.items ≤ 2 ^ 32) };
}

impl<A: Allocator> Region<A> {
    // No partitions, in that many bytes, rounded down to whole pages.
    pub(super) fn new(alloc: A, capacity: usize) -> Region<A>
        ensures { result ≡ record { room = capacity / 4096 * 4096; sizes = [] } }
    {
        Region {
            capacity: capacity / PAGE * PAGE,
            allocated: 0,
            slots: Vec::new(alloc),
        }
    }

    pub(super) fn capacity(&self) -> usize
        ensures { result ≡ self.now.room }
    {
        self.capacity
    }

    pub(super) fn allocated(&self) -> usize
        ensures { result ≡ total_size self.now.sizes }
    {
        self.allocated
    }

    pub(super) fn partitions(&self) -> usize
        ensures count { result ≡ length self.now.sizes }
        ensures few { length self.now.sizes ≤ 2 ^ 32 }
    {
        self.slots.len()
    }

    pub(super) fn slot(&self, id: u32) -> Slot
        requires { id < length self.now.sizes }
        ensures size { slice_get self.now.sizes id ≡ Some result.size }
        ensures extent { slice_get (laid_from 0 self.now.sizes) id ≡ Some (extent_of result) }
    {
        self.slots[id as usize]
    }

    pub(super) fn is_out_of_space(&self, size: usize) -> bool
        ensures { result ≡ lacks_space self.now size }
    {
        self.slots.len() < MAX_PARTITIONS && size > self.capacity - self.allocated
    }

    // Makes a slot after the others. Errors, in this order: Config, NoSpace, Memory.
    pub(super) fn create(&mut self, size: usize) -> Result<Slot>
        ensures made { IfOk result (λ s. (self.new.sizes ≡ self.old.sizes ++ size ∷ [])
            × (laid_from 0 self.new.sizes ≡ laid_from 0 self.old.sizes ++ extent_of s ∷ [])
            × (s.size ≡ size) × (length self.old.sizes < 2 ^ 32)) }
        ensures kept { OnErr result (self.new ≡ self.old) }
        ensures room { self.new.room ≡ self.old.room }
        ensures size { IfOk result (λ _. IsPartitionSize size) }
        ensures config { (¬ IsPartitionSize size) → result ≡ Err error.Config }
        ensures full { result ≡ Err error.Config
            → (¬ IsPartitionSize size) ⊎ IsTrue (has_all_numbers self.old) }
        ensures space { (result ≡ Err error.NoSpace)
            ↔ (IsPartitionSize size × IsTrue (lacks_space self.old size)) }
        ensures refused { IfErr result (λ e. (e ≡ error.Config) ⊎ (e ≡ error.NoSpace)
            ⊎ (e ≡ error.Io) ⊎ (e ≡ error.Memory)) }
    {
        if size == 0 || size % PAGE != 0 || self.slots.len() >= MAX_PARTITIONS {
            return Err(Error::Config);
        }
        if size > self.capacity - self.allocated {
            return Err(Error::NoSpace);
        }
        let slot = Slot {
            start: self.allocated as u64,
            size,
        };
        self.slots.push(slot)?;
        self.allocated += size;
        Ok(slot)
    }

    // For contracts: the partitions lie in file 0, within the capacity, and no two share a byte.
    pub(super) fn show(&self)
        ensures apart { AreDisjoint (laid_from 0 self.now.sizes) }
        ensures within { LieInFiles 1 (laid_from 0 self.now.sizes) }
        ensures ends { EndBy self.now.room (laid_from 0 self.now.sizes) }
        ensures each { length (laid_from 0 self.now.sizes) ≡ length self.now.sizes }
    {
        let _ = &self.allocated;
    }
}
