//! The reclaims that run. Each has the entries that its scan has listed so far, and those whose records are read back.
ghost use Rattle.std.specs.Prelude.{◌≡◌, ◌+◌, ◌<◌, ◌≤◌, ◌^◌, ◌++◌, ◌∷◌, [], map, length, true, false, None, vec_len, vec_capacity, IfOk, OnOk, OnErr, IfSome, IsOkUnless, Some};
ghost use Rattle.std.specs.HashMap.{spare};
ghost use Rattle.std.specs.List.{filter};
ghost use Rattle.std.specs.Option.{option_map};
ghost use Rattle.std.specs.VecDeque.{deque_len, deque_capacity};
ghost use Rattle.foyer_device_page.specs.declared.error.Error.TheVariants.{Memory};
ghost use Rattle.foyer_block_index.specs.Removal.{without_addresses};
ghost use Rattle.foyer_block_manager.specs.BlockSets.{BlockSets, HasFinished, HasSameRules, Stands};
ghost use Rattle.foyer_block_manager.specs.Managed.{IsReclaimed};
ghost use Rattle.foyer_core_steps.specs.Reclaiming.{reclaiming, reclaim_at, ChangesReclaim, KeepsReclaim, first_reclaim, wanted_of, is_all_listed, awaited, may_forget, may_clean, hashed_of, after_index, index_infos, chosen, is_entry_among, left_in, after_record, after_fault, after_forget, requeue_count, verdict_list, IsVerdictOn, HasVerdicts, IsReread};

use foyer_block_index::indexer::{HashedEntryAddress, Indexer};
use foyer_block_index::manager::BlockId;
use foyer_block_manager::block::manager::BlockManager;
use foyer_block_scan::block::scanner::{BlockScanner, EntryInfo};
use foyer_device_page::error::Result;
use foyer_device_statistics::IoState;
use foyer_policy_filter::{StorageFilter, StorageFilterCondition};
use std::alloc::{Allocator, Global};
use std::collections::{HashMap, VecDeque};
use std::hash::{BuildHasherDefault, FoldHasher};

/// What a reclaim reads next.
#[derive(Clone, Copy, Debug)]
pub enum Wanted {
    /// The index at this offset.
    Index(usize),
    /// The record of an entry that was admitted for reinsertion.
    Record(HashedEntryAddress),
}

/// The lists of a reclaim. The first has the entries that its scan listed. The second has the admitted entries whose records aren't read
/// yet: all are of the index that was listed last. The third has the entries whose records were queued for reinsertion.
#[derive(Drop)]
pub struct Lists<A: Allocator> {
    listed: Vec<HashedEntryAddress, A>,
    admitted: VecDeque<HashedEntryAddress, A>,
    requeued: Vec<HashedEntryAddress, A>,
}

impl<A: Allocator + Clone> Lists<A> {
    /// Gives empty lists. Errors: `Memory` alone.
    pub fn new(alloc: &A) -> Result<Lists<A>>
        ensures listed { IfOk result (λ l. l.listed.items ≡ []) }
        ensures admitted { IfOk result (λ l. l.admitted.items ≡ []) }
        ensures requeued { IfOk result (λ l. l.requeued.items ≡ []) }
        ensures refused { IsOkUnless result Memory }
    {
        Ok(Lists {
            listed: Vec::new(alloc.clone()?),
            admitted: VecDeque::new(alloc.clone()?),
            requeued: Vec::new(alloc.clone()?),
        })
    }
}

/// The reclaim of a block: the scan that lists it, its lists, and whether what was listed has left the index.
#[derive(Drop)]
pub struct Reclaimer<A: Allocator> {
    scanner: BlockScanner,
    lists: Lists<A>,
    is_forgotten: bool,
}

// The reclaims that run, by their blocks.
pub(crate) type Reclaims<A> = HashMap<BlockId, Reclaimer<A>, BuildHasherDefault<FoldHasher>, A>;

// An entry as it is listed.
fn hashed(info: &EntryInfo) -> HashedEntryAddress
    ensures { result ≡ hashed_of info.now }
{
    HashedEntryAddress {
        hash: info.hash,
        address: info.addr,
    }
}

// More listed addresses, for which there is room.
fn list_all<A: Allocator>(listed: &mut Vec<HashedEntryAddress, A>, infos: &[EntryInfo])
    requires { vec_len listed.old + length infos.now ≤ vec_capacity listed.old }
    ensures { listed.new.items ≡ listed.old.items ++ map hashed_of infos.now }
{
    'each_info: for info in infos {
        listed.push_reserved(hashed(info));
    }
}

// Whether the filter admits an entry of this hash and length. None is a filter that rejects all.
fn is_admitted<C: StorageFilterCondition>(
    filter: &Option<StorageFilter<C, Global>>,
    io: &IoState,
    info: &EntryInfo,
) -> bool
    ensures { IsVerdictOn C.may_answer filter.now io.now info.now result }
{
    match filter {
        Some(filter) => filter
            .filter(io, info.hash, info.addr.len as usize)
            .is_admitted(),
        None => false,
    }
}

// The verdict on each entry.
fn judge_all<A: Allocator, C: StorageFilterCondition>(
    alloc: A,
    filter: &Option<StorageFilter<C, Global>>,
    io: &IoState,
    infos: &[EntryInfo],
) -> Result<Vec<bool, A>>
    ensures verdicts { IfOk result (λ v. HasVerdicts C.may_answer filter.now io.now infos.now v.items) }
    ensures count { IfOk result (λ v. vec_len v ≡ length infos.now) }
    ensures refused { IsOkUnless result Memory }
{
    let mut verdicts = Vec::with_capacity(alloc, infos.len())?;
    'each_info: for info in infos {
        verdicts.push_reserved(is_admitted(filter, io, info));
    }
    Ok(verdicts)
}

// The entries with a verdict that admits them, for which there is room.
fn admit_all<A: Allocator>(
    admitted: &mut VecDeque<HashedEntryAddress, A>,
    infos: &[EntryInfo],
    verdicts: &[bool],
)
    requires room { deque_len admitted.old + length infos.now ≤ deque_capacity admitted.old }
    requires all { length verdicts.now ≡ length infos.now }
    ensures { admitted.new.items ≡ admitted.old.items ++ chosen verdicts.now (map hashed_of infos.now) }
{
    'each_info: for i in 0..infos.len() {
        if verdicts[i] {
            admitted.push_back_reserved(hashed(&infos[i]));
        }
    }
}

// Whether the entries have this one.
fn is_among(entries: &[HashedEntryAddress], entry: &HashedEntryAddress) -> bool
    ensures { result ≡ is_entry_among entries.now entry.now }
{
    'each_entry: for other in entries {
        if entry.hash == other.hash && entry.address == other.address {
            return true;
        }
    }
    false
}

// Those that were queued for reinsertion aren't listed any more.
fn leave_out<A: Allocator>(listed: &mut Vec<HashedEntryAddress, A>, requeued: &[HashedEntryAddress])
    ensures { listed.new.items ≡ left_in requeued.now listed.old.items }
{
    if requeued.is_empty() {
        return;
    }
    listed.retain(|entry| !is_among(requeued, entry));
}

impl<A: Allocator + Clone> Reclaimer<A> {
    /// Begins the reclaim of a block in a filling. Requires empty lists, and a block of at most 2^32 bytes. It doesn't allocate.
    pub fn new(
        lists: Lists<A>,
        block: BlockId,
        filling: u64,
        block_size: usize,
        index_size: usize,
    ) -> Reclaimer<A>
        requires small { block_size ≤ 2 ^ 32 }
        requires none { (lists.listed.items ≡ []) × (lists.admitted.items ≡ []) × (lists.requeued.items ≡ []) }
        ensures { reclaiming result ≡ first_reclaim block filling (record { block = block_size; index = index_size }) }
    {
        Reclaimer {
            scanner: BlockScanner::new(block, filling, block_size, index_size),
            lists,
            is_forgotten: false,
        }
    }

    /// What is to be read next; `None` once the listing has ended, and no admitted record is left to be read.
    pub fn wanted(&self) -> Option<Wanted>
        ensures { result ≡ wanted_of (reclaiming self.now) }
    {
        if self.is_forgotten {
            return None;
        }
        if let Some(entry) = self.lists.admitted.front() {
            return Some(Wanted::Record(*entry));
        }
        match self.scanner.blob_offset() {
            Some(offset) => Some(Wanted::Index(offset)),
            None => None,
        }
    }

    /// Whether the listing has ended, no admitted record is left to be read, and what was listed hasn't left the index yet.
    pub fn is_listed(&self) -> bool
        ensures { result ≡ is_all_listed (reclaiming self.now) }
    {
        !self.is_forgotten && self.lists.admitted.is_empty() && self.scanner.blob_offset().is_none()
    }

    /// Whether what was listed has left the index.
    pub fn is_forgotten(&self) -> bool
        ensures { result ≡ self.now.is_forgotten }
    {
        self.is_forgotten
    }

    /// Takes the bytes of the index that is wanted, and gives the verdict on each of its entries: whether the filter admits an entry of
    /// this hash and length. Gives `None` if the bytes are no index, or if they are one with an entry that doesn't fit. Then the listing
    /// has ended. Errors: `Memory` alone. Nothing changes then.
    pub fn read<C: StorageFilterCondition>(
        &mut self,
        alloc: &A,
        bytes: &[u8],
        filter: &Option<StorageFilter<C, Global>>,
        io: &IoState,
    ) -> Result<Option<Vec<bool, A>>>
        ensures read { IfOk result (λ v. reclaiming self.new ≡ after_index bytes.now (verdict_list v) (reclaiming self.old)) }
        ensures verdicts { IfOk result (λ v. IsReread C.may_answer filter.now io.now (index_infos bytes.now (reclaiming self.old)) (verdict_list v)) }
        ensures unchanged { OnErr result (reclaiming self.new ≡ reclaiming self.old) }
        ensures refused { IsOkUnless result Memory }
    {
        let mut scan = self.scanner.copy();
        let Some(infos) = scan.next(alloc, bytes)? else {
            self.scanner = scan;
            return Ok(None);
        };
        let verdicts = judge_all(alloc.clone()?, filter, io, &infos)?;
        self.lists.listed.reserve(infos.len())?;
        self.lists.admitted.reserve(infos.len())?;
        list_all(&mut self.lists.listed, &infos);
        admit_all(&mut self.lists.admitted, &infos, &verdicts);
        self.scanner = scan;
        Ok(Some(verdicts))
    }

    /// How many records were queued for reinsertion.
    pub fn requeue_count(&self) -> usize
        ensures { result ≡ requeue_count (reclaiming self.now) }
    {
        self.lists.requeued.len()
    }

    /// Notes that the wanted record was read and is queued for reinsertion. Errors: `Memory` alone. Nothing changes then.
    pub fn requeue(&mut self) -> Result<()>
        ensures noted { OnOk result (reclaiming self.new ≡ after_record (reclaiming self.old)) }
        ensures unchanged { OnErr result (reclaiming self.new ≡ reclaiming self.old) }
        ensures refused { IsOkUnless result Memory }
    {
        self.lists.requeued.reserve(1)?;
        if let Some(entry) = self.lists.admitted.pop_front() {
            self.lists.requeued.push_reserved(entry);
        }
        Ok(())
    }

    /// Notes that the read failed: nothing more is listed or read.
    pub fn fail(&mut self)
        ensures { reclaiming self.new ≡ after_fault (reclaiming self.old) }
    {
        self.lists.admitted.clear();
        self.scanner.fail();
    }

    /// Removes from the index what was listed, except what was queued for reinsertion. An address is only removed if its hash
    /// has that very address. Compares each listed entry with each queued one.
    pub fn forget(&mut self, index: &mut Indexer<A>)
        ensures index { index.new.slots ≡ without_addresses index.old.slots (left_in self.old.lists.requeued.items self.old.lists.listed.items) }
        ensures forgotten { reclaiming self.new ≡ after_forget (reclaiming self.old) }
    {
        leave_out(&mut self.lists.listed, &self.lists.requeued);
        index.remove_batch(&self.lists.listed);
        self.is_forgotten = true;
    }

    /// Ends the reclaim after the block's clean, failed or not. Requires that the block is being reclaimed. The block goes, in a new
    /// filling, to the flusher that began to wait last. Gives this flusher. If no flusher waits, or the block's count of fillings is at its
    /// end, the block is clean. It doesn't allocate.
    pub fn cleaned(self, manager: &mut BlockManager<A>, block: BlockId) -> Option<u32>
        requires { IsReclaimed manager.old block }
        ensures same { HasSameRules manager.old manager.new }
        ensures finished { (s : BlockSets) → Stands manager.old s → HasFinished s block result manager.new }
    {
        manager.on_reclaim_finish(block)
    }
}

/// The calls on a reclaim that has begun.
pub trait ReclaimerTrait<A: Allocator + Clone> {
    ghost use Rattle.foyer_core_steps.specs.Reclaiming.{Reclaiming};

    // What the reclaim has.
    ghost state: { Self → Reclaiming };

    /// As `Reclaimer::read`.
    fn read<C: StorageFilterCondition>(
        &mut self,
        alloc: &A,
        bytes: &[u8],
        filter: &Option<StorageFilter<C, Global>>,
        io: &IoState,
    ) -> Result<Option<Vec<bool, A>>>
        ensures read { IfOk result (λ v. state self.new ≡ after_index bytes.now (verdict_list v) (state self.old)) }
        ensures verdicts { IfOk result (λ v. IsReread C.may_answer filter.now io.now (index_infos bytes.now (state self.old)) (verdict_list v)) }
        ensures unchanged { OnErr result (state self.new ≡ state self.old) }
        ensures refused { IsOkUnless result Memory };

    /// As `Reclaimer::forget`.
    fn forget(&mut self, index: &mut Indexer<A>)
        ensures index { index.new.slots ≡ without_addresses index.old.slots (left_in (state self.old).requeued (state self.old).listed) }
        ensures forgotten { state self.new ≡ after_forget (state self.old) };

    /// As `Reclaimer::cleaned`.
    fn cleaned(self, manager: &mut BlockManager<A>, block: BlockId) -> Option<u32>
        requires { IsReclaimed manager.old block }
        ensures same { HasSameRules manager.old manager.new }
        ensures finished { (s : BlockSets) → Stands manager.old s → HasFinished s block result manager.new };
}

impl<A: Allocator + Clone> ReclaimerTrait<A> for Reclaimer<A> {
    ghost state = { reclaiming };

    fn read<C: StorageFilterCondition>(
        &mut self,
        alloc: &A,
        bytes: &[u8],
        filter: &Option<StorageFilter<C, Global>>,
        io: &IoState,
    ) -> Result<Option<Vec<bool, A>>> {
        Reclaimer::read(self, alloc, bytes, filter, io)
    }

    fn forget(&mut self, index: &mut Indexer<A>) {
        Reclaimer::forget(self, index);
    }

    fn cleaned(self, manager: &mut BlockManager<A>, block: BlockId) -> Option<u32> {
        Reclaimer::cleaned(self, manager, block)
    }
}

// What the reclaim of a block reads next, if one runs and not all is listed and read.
pub(crate) fn awaited<A: Allocator + Clone>(
    reclaims: &Reclaims<A>,
    block: BlockId,
) -> Option<Wanted>
    ensures { result ≡ awaited (reclaim_at reclaims.now block) }
{
    match reclaims.get(&block) {
        Some(reclaimer) => reclaimer.wanted(),
        None => None,
    }
}

// Whether all of a reclaimed block is listed and read, and hasn't left the index yet.
pub(crate) fn may_forget<A: Allocator + Clone>(reclaims: &Reclaims<A>, block: BlockId) -> bool
    ensures { result ≡ may_forget (reclaim_at reclaims.now block) }
{
    match reclaims.get(&block) {
        Some(reclaimer) => reclaimer.is_listed(),
        None => false,
    }
}

// Whether what a reclaimed block listed has left the index.
pub(crate) fn may_clean<A: Allocator + Clone>(reclaims: &Reclaims<A>, block: BlockId) -> bool
    ensures { result ≡ may_clean (reclaim_at reclaims.now block) }
{
    match reclaims.get(&block) {
        Some(reclaimer) => reclaimer.is_forgotten(),
        None => false,
    }
}

// The reclaim of a block begins, for which there is room.
pub(crate) fn begin<A: Allocator + Clone>(
    reclaims: &mut Reclaims<A>,
    block: BlockId,
    reclaimer: Reclaimer<A>,
)
    requires { 0 < spare reclaims.old }
    ensures { ChangesReclaim reclaims.old reclaims.new block (Some (reclaiming reclaimer)) }
{
    let begun: std::result::Result<_, _> = reclaims.insert(block, reclaimer);
    let _ = begun.unwrap();
}

// The reclaim of a block takes an index.
pub(crate) fn read<A: Allocator + Clone, C: StorageFilterCondition>(
    reclaims: &mut Reclaims<A>,
    alloc: &A,
    block: BlockId,
    bytes: &[u8],
    filter: &Option<StorageFilter<C, Global>>,
    io: &IoState,
) -> Result<Option<Vec<bool, A>>>
    ensures read { IfOk result (λ v. ChangesReclaim reclaims.old reclaims.new block (option_map (after_index bytes.now (verdict_list v)) (reclaim_at reclaims.old block))) }
    ensures verdicts { IfOk result (λ v. IfSome (reclaim_at reclaims.old block) (λ r. IsReread C.may_answer filter.now io.now (index_infos bytes.now r) (verdict_list v))) }
    ensures unchanged { OnErr result (KeepsReclaim reclaims.old reclaims.new) }
    ensures refused { IsOkUnless result Memory }
{
    match reclaims.get_mut(&block) {
        Some(reclaimer) => reclaimer.read(alloc, bytes, filter, io),
        None => Ok(None),
    }
}

// Gives how many records the reclaim of a block queued for reinsertion, and 0 if none runs.
pub(crate) fn requeue_count<A: Allocator + Clone>(reclaims: &Reclaims<A>, block: BlockId) -> usize
    ensures { IfSome (reclaim_at reclaims.now block) (λ r. result ≡ requeue_count r) }
{
    match reclaims.get(&block) {
        Some(reclaimer) => reclaimer.requeue_count(),
        None => 0,
    }
}

// The record that the reclaim of a block wants is queued for reinsertion.
pub(crate) fn requeue<A: Allocator + Clone>(
    reclaims: &mut Reclaims<A>,
    block: BlockId,
) -> Result<()>
    ensures noted { OnOk result (ChangesReclaim reclaims.old reclaims.new block (option_map after_record (reclaim_at reclaims.old block))) }
    ensures unchanged { OnErr result (KeepsReclaim reclaims.old reclaims.new) }
    ensures refused { IsOkUnless result Memory }
{
    match reclaims.get_mut(&block) {
        Some(reclaimer) => reclaimer.requeue(),
        None => Ok(()),
    }
}

// The read for the reclaim of a block failed.
pub(crate) fn fail<A: Allocator + Clone>(reclaims: &mut Reclaims<A>, block: BlockId)
    ensures { ChangesReclaim reclaims.old reclaims.new block (option_map after_fault (reclaim_at reclaims.old block)) }
{
    if let Some(reclaimer) = reclaims.get_mut(&block) {
        reclaimer.fail();
    }
}

// What the reclaim of a block listed leaves the index.
pub(crate) fn forget<A: Allocator + Clone>(
    reclaims: &mut Reclaims<A>,
    index: &mut Indexer<A>,
    block: BlockId,
)
    ensures index { IfSome (reclaim_at reclaims.old block) (λ r. index.new.slots ≡ without_addresses index.old.slots (left_in r.requeued r.listed)) }
    ensures forgotten { ChangesReclaim reclaims.old reclaims.new block (option_map after_forget (reclaim_at reclaims.old block)) }
{
    if let Some(reclaimer) = reclaims.get_mut(&block) {
        reclaimer.forget(index);
    }
}

// The reclaim of a block, which was forgotten, ends.
pub(crate) fn cleaned<A: Allocator + Clone>(
    reclaims: &mut Reclaims<A>,
    manager: &mut BlockManager<A>,
    block: BlockId,
) -> Option<u32>
    requires forgotten { may_clean (reclaim_at reclaims.old block) ≡ true }
    requires reclaimed { IsReclaimed manager.old block }
    ensures ended { ChangesReclaim reclaims.old reclaims.new block None }
    ensures same { HasSameRules manager.old manager.new }
    ensures finished { (s : BlockSets) → Stands manager.old s → HasFinished s block result manager.new }
{
    let Some(reclaimer) = reclaims.remove(&block) else {
        unreachable!()
    };
    reclaimer.cleaned(manager, block)
}
