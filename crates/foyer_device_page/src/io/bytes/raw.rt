//! A buffer of whole pages.
ghost use Rattle.std.specs.Prelude.{◌≡◌, ◌⊎◌, ◌^◌, ◌*◌, ◌≤◌, ◌<◌, ◌%◌, ◌↔◌, ℕ, List, IfOk, IfErr, IfSome, IfNone, length, replicate, nat_eq};
ghost use Rattle.std.specs.Borrow.{sem, Lends, Array, u8};
ghost use Rattle.std.specs.Cmp.Lexicographic.{pointwise, nat_list_eq_equiv};
ghost use Rattle.std.specs.Cmp.{partial_equiv_from_equiv};
ghost use Rattle.foyer_format_layout.specs.Page.{page_up};
ghost use Rattle.foyer_device_page.specs.Refilled.{refilled, refilled-same};
ghost use Rattle.foyer_device_page.specs.contracts.io.bytes.raw.Raw.{the_row};
ghost use Rattle.foyer_device_page.specs.declared.error.Error.TheVariants as error;

use super::views::{IoB, IoBuf, IoBufMut};
use crate::error::{Error, Result};
use std::alloc::{AllocError, Allocator};
use std::convert::AsSlice;
use std::marker::Model;

/// The bytes of a page of the device.
pub const PAGE: usize = 4096;

/// Bytes of whole pages, in memory of their own.
#[derive(Debug)]
pub struct Raw<A: Allocator> {
    bytes: Vec<u8, A>,
}

// Written out, so that it is proved once.
impl<A: Allocator> Drop for Raw<A> {
    fn drop(self) {
        let Raw { bytes: _ } = self;
    }
}

impl<A: Allocator> Model for Raw<A> {
    ghost use Rattle.std.specs.Prelude.{◌≡◌, ◌%◌, ℕ, List, length};

    ghost Value = { List ℕ };

    ghost view = { λ r. r.bytes.items };

    ghost invariant = { λ r. length r.bytes.items % 4096 ≡ 0 };
}

impl<A: Allocator> Raw<A> {
    /// Gives `capacity` bytes of zeros, rounded up to whole pages. Errors: OutOfRange if the rounded
    /// length passes `usize::MAX`, Memory if memory was refused.
    #[tactic(auto, unfolding(foyer_format_layout::specs::Page::page_up))]
    pub fn new(alloc: A, capacity: usize) -> Result<Raw<A>>
        ensures zeros { IfOk result (λ r. r ≡ replicate (page_up capacity) 0) }
        ensures beyond { (result ≡ Err error.OutOfRange) ↔ (2 ^ 64 ≤ page_up capacity) }
        ensures refused { IfErr result (λ e. (e ≡ error.OutOfRange) ⊎ (e ≡ error.Memory)) }
    {
        if capacity > usize::MAX - (PAGE - 1) {
            return Err(Error::OutOfRange);
        }
        let len = (capacity + (PAGE - 1)) / PAGE * PAGE;
        let mut bytes = Vec::new(alloc);
        bytes.resize(len, 0)?;
        Ok(Raw { bytes })
    }

    /// How many bytes it has.
    pub fn len(&self) -> usize
        ensures value { result ≡ length self.now }
        ensures pages { result % 4096 ≡ 0 }
    {
        self.bytes.len()
    }

    /// Its bytes.
    pub fn as_slice(&self) -> &[u8]
        ensures value { result.now ≡ self.now }
        ensures pages { length result.now % 4096 ≡ 0 }
    {
        self.bytes.as_slice()
    }

    /// Its bytes, to be written over.
    pub fn as_mut_slice(&mut self) -> &mut [u8]
        ensures* writes_back { sem 𝓛
            (Lends (the_row A.row A.Allocator) (Array u8 0) self.entry result
            (refilled self.old)) }
        ensures value { result.now ≡ self.old }
    {
        self.bytes.as_mut_slice()
    }
}

impl<A: Allocator + Clone> Clone for Raw<A> {
    ghost is_clone = { λ r s. s ≡ r };

    /// Copies the bytes to memory of their own. Fails if an allocation, or a clone of the allocator, was
    /// refused.
    fn clone(&self) -> std::result::Result<Raw<A>, AllocError> {
        let alloc = self.bytes.allocator().clone()?;
        let bytes = Vec::from_slice(alloc, self.as_slice())?;
        Ok(Raw { bytes })
    }
}

impl<A: Allocator> PartialEq for Raw<A> {
    ghost eq = { λ r s. pointwise nat_eq r s };

    ghost laws = { partial_equiv_from_equiv nat_list_eq_equiv };

    fn eq(&self, other: &Raw<A>) -> bool {
        self.as_slice() == other.as_slice()
    }
}

impl<A: Allocator> Eq for Raw<A> {
    ghost laws = { nat_list_eq_equiv };
}

impl<A: Allocator> AsSlice<u8> for Raw<A> {
    ghost items = { λ r. r };

    fn as_slice(&self) -> &[u8] {
        self.as_slice()
    }
}

impl<A: Allocator> IoB for Raw<A> {
    ghost bytes = { λ r. r };

    fn as_slice(&self) -> &[u8] {
        self.as_slice()
    }
}

impl<A: Allocator> IoBuf for Raw<A> {
    fn into_iob(self) -> Raw<A> {
        self
    }
}

impl<A: Allocator> IoBufMut for Raw<A> {
    ghost filled = { refilled };

    ghost fills = { refilled-same };

    fn as_mut_slice(&mut self) -> &mut [u8] {
        self.as_mut_slice()
    }

    fn into_iob(self) -> Raw<A> {
        self
    }
}
