//! Keys and values, and what is careless of them and beside them.
ghost use Rattle.std.specs.Prelude.{◌≡◌, ◌↔◌, ◌∷◌, [], Some, length, nat_lt, if◌then◌else◌};
ghost use Rattle.std.specs.Int.{w64};
ghost use Rattle.foyer_format_code.specs.Codes.{is_number};
ghost use Rattle.foyer_policy_filter.specs.declared.verdict.StorageFilterResult.TheVariants.{Admit};
ghost use Rattle.test_run.specs.Numbers.{bytes_of, may_encode, number_of, is_encoded, one_of, may_be_coded};

use foyer_block_index::manager::BlockId;
use foyer_block_manager::block::eviction::{EvictionInfo, EvictionPicker};
use foyer_device_page::error::{Error, Result};
use foyer_device_statistics::IoState;
use foyer_format_record::serde::{Code, HashBuilder, Sink};
use foyer_policy_filter::{StorageFilterCondition, StorageFilterResult};
use std::alloc::{Allocator, Global};
use std::time::Duration;

/// A number as a key or a value; a missing one fails to be encoded, once some of its bytes are written.
#[derive(Clone, Copy, Debug, PartialEq, Eq)]
pub struct Number(pub Option<u64>);

/// The number of a word, or a missing one.
pub fn number_in(word: &str) -> Number {
    match word.parse::<u64>() {
        Ok(number) => Number(Some(number)),
        Err(_) => Number(None),
    }
}

impl<A: Allocator> Code<A> for Number {
    ghost encoding = { λ n. bytes_of n.0 };

    ghost is_encodable = { λ n. may_encode n.0 };

    ghost is_decodable = { is_number w64 };

    ghost same = { λ n m. n.0 ≡ m.0 };

    ghost takes_memory = { λ _. ⊥ };

    #[tactic(auto, using(crate::specs::Numbers::is_torn))]
    fn encode_into<W: Sink>(&self, writer: &mut W) -> Result<()> {
        match self.0 {
            Some(number) => <u64 as Code<A>>::encode_into(&number, writer),
            None => {
                writer.put(&[255, 255, 255])?;
                Err(Error::Parse)
            }
        }
    }

    fn decode(alloc: A, bytes: &[u8]) -> Result<Number> {
        Ok(Number(Some(<u64 as Code<A>>::decode(alloc, bytes)?)))
    }

    fn estimated_size(&self) -> usize {
        match self.0 {
            Some(number) => <u64 as Code<A>>::estimated_size(&number),
            None => 0,
        }
    }

    ghost is_encoded = { λ n. is_encoded n.0 };

    ghost one_value = { λ n m. one_of n.0 m.0 };

    ghost coded = { λ n. may_be_coded n.0 };
}

/// The hash of a number is the number, or of each the same.
#[derive(Clone, Copy)]
pub struct Hasher {
    /// Whether all have one hash.
    pub is_one: bool,
}

const ONE_HASH: u64 = 7;

impl HashBuilder<Number> for Hasher {
    ghost hash_of = { λ h n. if h.is_one then 7 else number_of n.0 };

    fn hash_one(&self, key: &Number) -> u64 {
        if self.is_one {
            return ONE_HASH;
        }
        match key.0 {
            Some(number) => number,
            None => 0,
        }
    }
}

/// A condition that admits one hash, and says of all others that the device is throttled.
#[derive(Drop)]
pub struct Throttling(pub u64);

impl StorageFilterCondition for Throttling {
    ghost may_answer = { λ c _ hash _ a. (a ≡ Admit) ↔ (hash ≡ c.0) };

    fn filter(&self, _io: &IoState, hash: u64, _size: usize) -> StorageFilterResult {
        if hash == self.0 {
            StorageFilterResult::Admit
        } else {
            StorageFilterResult::Throttled(Duration::MAX)
        }
    }
}

/// A picker that names one block, whether it is there or not, and puts it and one that isn't there on probation.
#[derive(Drop)]
pub struct Careless(pub BlockId);

impl EvictionPicker for Careless {
    ghost answer = { λ p _. Some p.0 };

    ghost marks = { λ p info. if nat_lt 1 (length info.blocks) then p.0 ∷ 4294967295 ∷ [] else [] };

    fn init(&mut self, _alloc: Global, _blocks: &[BlockId], _block_size: usize) -> Result<()> {
        Ok(())
    }

    fn pick(&self, info: EvictionInfo<'_>, probation: &mut Vec<BlockId>) -> Option<BlockId> {
        if info.blocks.len() > 1 {
            probation.push_reserved(self.0);
            probation.push_reserved(u32::MAX);
        }
        Some(self.0)
    }

    fn on_block_evictable(&mut self, _info: EvictionInfo<'_>, _block: BlockId) {}

    fn on_block_evict(&mut self, _info: EvictionInfo<'_>, _block: BlockId) {}
}
