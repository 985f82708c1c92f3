//! Ids below a bound, in any order: one enters, leaves and is looked up in constant time.
ghost use Rattle.std.specs.Prelude.{◌≡◌, ◌+◌, ◌<◌, ◌^◌, ℕ, List, [], ◌∷◌, ◌++◌, length, true, false, IfOk, IsOkUnless};
ghost use Rattle.foyer_device_page.specs.declared.error.Error.TheVariants.{Memory};
ghost use Rattle.foyer_core_model.specs.Ids.{ids, is_id_in};
ghost use Rattle.foyer_block_manager.specs.IdList.{IsWithout};

use foyer_block_index::manager::BlockId;
use foyer_device_page::error::Result;
use std::alloc::Allocator;
use std::marker::Model;

/// A set of ids below a bound. It has room for all of them from the start.
#[derive(Drop)]
pub struct IdSet<A: Allocator> {
    ids: Vec<BlockId, A>,
    // For each id below the bound that is in the set, its position in `ids`. For other ids, any number.
    at: Vec<u32, A>,
}

impl<A: Allocator> Model for IdSet<A> {
    ghost use Rattle.std.specs.Prelude.{◌≡◌, ◌≤◌, ◌<◌, ◌^◌, length, vec_capacity};
    ghost use Rattle.foyer_block_manager.specs.IdList.{IdList, AreStored};

    ghost Value = { IdList };

    ghost view = { λ s. record { ids = s.ids.items; bound = length s.at.items } };

    ghost invariant = { λ s. AreStored s.ids.items s.at.items × (length s.at.items ≤ vec_capacity s.ids) };
}

impl<A: Allocator> IdSet<A> {
    // An empty set, with room for all ids below the bound.
    pub(crate) fn new(alloc: &A, bound: u32) -> Result<IdSet<A>>
    where
        A: Clone,
        ensures empty { IfOk result (λ s. s.ids ≡ []) }
        ensures bound { IfOk result (λ s. s.bound ≡ bound) }
        ensures refused { IsOkUnless result Memory }
    {
        let ids = Vec::with_capacity(alloc.clone()?, bound as usize)?;
        let at = vec![in alloc.clone()?; 0u32; bound as usize]?;
        Ok(IdSet { ids, at })
    }

    /// Gives all ids below the bound, in order. Errors: `Memory`.
    pub fn full(alloc: &A, bound: u32) -> Result<IdSet<A>>
    where
        A: Clone,
        ensures all { IfOk result (λ s. s.ids ≡ ids bound) }
        ensures bound { IfOk result (λ s. s.bound ≡ bound) }
        ensures refused { IsOkUnless result Memory }
    {
        let mut set = IdSet::new(alloc, bound)?;
        'each_id: for id in 0..bound {
            set.insert(id);
        }
        Ok(set)
    }

    /// The ids, in any order.
    pub fn as_slice(&self) -> &[BlockId]
        ensures { result.now ≡ self.now.ids }
    {
        &self.ids
    }

    /// Whether an id is there.
    pub fn contains(&self, id: BlockId) -> bool
        ensures { result ≡ is_id_in id self.now.ids }
    {
        let Some(position) = self.at.get(id as usize) else {
            return false;
        };
        match self.ids.get(*position as usize) {
            Some(found) => *found == id,
            None => false,
        }
    }

    pub(crate) fn insert(&mut self, id: BlockId)
        requires there { id < self.old.bound }
        requires new { is_id_in id self.old.ids ≡ false }
        ensures ids { self.new.ids ≡ self.old.ids ++ id ∷ [] }
        ensures bound { self.new.bound ≡ self.old.bound }
    {
        let position = self.ids.len();
        self.ids.push_reserved(id);
        self.at[id as usize] = position as u32;
    }

    /// Removes an id, which must be in the set. The others may change their order.
    pub fn remove(&mut self, id: BlockId)
        requires { is_id_in id self.old.ids ≡ true }
        ensures ids { IsWithout id self.old.ids self.new.ids }
        ensures bound { self.new.bound ≡ self.old.bound }
    {
        let position = self.at[id as usize] as usize;
        let _ = self.ids.swap_remove(position);
        if position < self.ids.len() {
            let moved = self.ids[position];
            self.at[moved as usize] = position as u32;
        }
    }
}
