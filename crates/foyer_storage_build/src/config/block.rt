//! What an engine over the blocks of a device is built of.
ghost use Rattle.std.specs.Prelude.{◌≡◌, ◌↔◌, ◌-◌, IfErr, IsOk, None, Some, true};
ghost use Rattle.foyer_device_partition.specs.Extent.{total_size};
ghost use Rattle.foyer_storage_build.specs.Building.{CanPlan, default_sizes, is_plan_error};

use super::dividing::plan;
use super::pickers::{DefaultPickers, GivenPickers, PickerSource};
use foyer_block_manager::block::eviction::EvictionPicker;
use foyer_device_page::error::Result;
use foyer_device_partition::io::device::Device;
use foyer_io_gate::gate::{Gate, OpenGate};
use foyer_policy_filter::{BuiltInCondition, StorageFilter, StorageFilterCondition};
use foyer_storage_plan::sizes::EngineSizes;
use std::alloc::{AllocError, Allocator, Global};
use std::fmt;
use std::fmt::{Debug, Formatter};

/// Builds an engine over the blocks of a device.
#[derive(Drop)]
pub struct BlockEngineConfig<
    D: Device,
    S: PickerSource = DefaultPickers,
    C: StorageFilterCondition = BuiltInCondition,
    G: Gate = OpenGate,
> {
    pub(super) device: D,
    pub(super) sizes: EngineSizes,
    pub(super) pickers: S,
    pub(super) admission: Option<StorageFilter<C, Global>>,
    pub(super) reinsertion: Option<StorageFilter<C, Global>>,
    pub(super) gate: G,
}

/// The type's name.
impl<D: Device, S: PickerSource, C: StorageFilterCondition, G: Gate> Debug
    for BlockEngineConfig<D, S, C, G> {
    fn fmt<W: fmt::Write>(&self, f: &mut Formatter<W>) -> fmt::Result {
        f.write_str("BlockEngineConfig")
    }
}

impl<D: Device> BlockEngineConfig<D, DefaultPickers, BuiltInCondition, OpenGate> {
    /// An engine over this device, with every size at its default; all is admitted that the device's limits admit, nothing is written again,
    /// no delete is logged, and no thread is held.
    pub fn new(device: D) -> BlockEngineConfig<D, DefaultPickers, BuiltInCondition, OpenGate>
        ensures device { result.device ≡ device }
        ensures filters { (result.admission ≡ None) × (result.reinsertion ≡ None) }
        ensures sizes { result.sizes ≡ default_sizes }
    {
        BlockEngineConfig {
            device,
            sizes: EngineSizes::new(),
            pickers: DefaultPickers,
            admission: None,
            reinsertion: None,
            gate: OpenGate,
        }
    }
}

impl<D: Device, S: PickerSource, C: StorageFilterCondition, G: Gate> BlockEngineConfig<D, S, C, G> {
    /// With all these sizes at once. `EngineSizes::{check, plan}` say before `build` whether they go together, and fit a device. Default:
    /// `EngineSizes::new`.
    pub fn with_sizes(self, sizes: EngineSizes) -> BlockEngineConfig<D, S, C, G>
        ensures { result ≡ record self { sizes = sizes } }
    {
        BlockEngineConfig { sizes, ..self }
    }

    /// Its sizes.
    pub fn sizes(&self) -> &EngineSizes
        ensures { result.now ≡ self.now.sizes }
    {
        &self.sizes
    }

    /// Checks that its sizes go together and fit its device, which stays as it is. `StoreBuilder::build` does so before it touches the device.
    /// Errors, in this order: `Config` as by `EngineSizes::check`; `OutOfRange` for a log of deletes of 2^64 bytes or more; those of
    /// `EngineSizes::plan`.
    pub fn check(&self) -> Result<()>
        ensures sound { IsOk result ↔ CanPlan self.now.sizes (D.room self.now.device) (D.room self.now.device - total_size (D.sizes self.now.device)) }
        ensures refused { IfErr result (λ e. is_plan_error e ≡ true) }
    {
        let _ = plan(&self.device, &self.sizes)?;
        Ok(())
    }

    /// The bytes of a block, rounded up to whole pages. Default: `DEFAULT_BLOCK_SIZE`.
    pub fn with_block_size(self, block_size: usize) -> BlockEngineConfig<D, S, C, G>
        ensures { result ≡ record self { sizes = record self.sizes { block_size = block_size } } }
    {
        let sizes = EngineSizes {
            block_size,
            ..self.sizes
        };
        self.with_sizes(sizes)
    }

    /// The bytes of a blob index, rounded up to whole pages. Default: `DEFAULT_BLOB_INDEX_SIZE`.
    pub fn with_blob_index_size(self, blob_index_size: usize) -> BlockEngineConfig<D, S, C, G>
        ensures { result ≡ record self { sizes = record self.sizes { blob_index_size = blob_index_size } } }
    {
        let sizes = EngineSizes {
            blob_index_size,
            ..self.sizes
        };
        self.with_sizes(sizes)
    }

    /// Into how many shards the index is divided. Default: `default_indexer_shards` of the blocks.
    pub fn with_indexer_shards(self, indexer_shards: usize) -> BlockEngineConfig<D, S, C, G>
        ensures { result ≡ record self { sizes = record self.sizes { indexer_shards = Some indexer_shards } } }
    {
        let sizes = EngineSizes {
            indexer_shards: Some(indexer_shards),
            ..self.sizes
        };
        self.with_sizes(sizes)
    }

    /// How many workers read the blocks at an opening. Default: `DEFAULT_RECOVER_CONCURRENCY`.
    pub fn with_recover_concurrency(
        self,
        recover_concurrency: usize,
    ) -> BlockEngineConfig<D, S, C, G>
        ensures { result ≡ record self { sizes = record self.sizes { recover_concurrency = recover_concurrency } } }
    {
        let sizes = EngineSizes {
            recover_concurrency,
            ..self.sizes
        };
        self.with_sizes(sizes)
    }

    /// How many I/O engines loads read through, each behind a lock of its own: a session keeps to one. Default:
    /// `DEFAULT_LOAD_ENGINES`.
    pub fn with_load_engines(self, load_engines: usize) -> BlockEngineConfig<D, S, C, G>
        ensures { result ≡ record self { sizes = record self.sizes { load_engines = load_engines } } }
    {
        let sizes = EngineSizes {
            load_engines,
            ..self.sizes
        };
        self.with_sizes(sizes)
    }

    /// How often at most a put that finds more queued than the threshold looks again, before it isn't taken and its key is deleted.
    /// Between two looks it yields to other threads, and holds no lock. Default: `DEFAULT_ENQUEUE_PATIENCE`, 0.
    pub fn with_enqueue_patience(self, enqueue_patience: u32) -> BlockEngineConfig<D, S, C, G>
        ensures { result ≡ record self { sizes = record self.sizes { enqueue_patience = enqueue_patience } } }
    {
        let sizes = EngineSizes {
            enqueue_patience,
            ..self.sizes
        };
        self.with_sizes(sizes)
    }

    /// How many flushers there are. Default: `DEFAULT_FLUSHERS`.
    pub fn with_flushers(self, flushers: u32) -> BlockEngineConfig<D, S, C, G>
        ensures { result ≡ record self { sizes = record self.sizes { flushers = flushers } } }
    {
        let sizes = EngineSizes {
            flushers,
            ..self.sizes
        };
        self.with_sizes(sizes)
    }

    /// How many reclaimers there are. Default: `DEFAULT_RECLAIMERS`.
    pub fn with_reclaimers(self, reclaimers: u32) -> BlockEngineConfig<D, S, C, G>
        ensures { result ≡ record self { sizes = record self.sizes { reclaimers = reclaimers } } }
    {
        let sizes = EngineSizes {
            reclaimers,
            ..self.sizes
        };
        self.with_sizes(sizes)
    }

    /// The bytes of all flushers' buffers together. Default: `DEFAULT_BUFFER_POOL_SIZE`.
    pub fn with_buffer_pool_size(self, buffer_pool_size: usize) -> BlockEngineConfig<D, S, C, G>
        ensures { result ≡ record self { sizes = record self.sizes { buffer_pool_size = buffer_pool_size } } }
    {
        let sizes = EngineSizes {
            buffer_pool_size,
            ..self.sizes
        };
        self.with_sizes(sizes)
    }

    /// The queued bytes above which puts aren't taken: their keys are deleted. Default: `DEFAULT_SUBMIT_QUEUE_SIZE_THRESHOLD`.
    pub fn with_submit_queue_size_threshold(
        self,
        submit_queue_size_threshold: usize,
    ) -> BlockEngineConfig<D, S, C, G>
        ensures { result ≡ record self { sizes = record self.sizes { submit_queue_size_threshold = submit_queue_size_threshold } } }
    {
        let sizes = EngineSizes {
            submit_queue_size_threshold,
            ..self.sizes
        };
        self.with_sizes(sizes)
    }

    /// A reclaim may begin if fewer blocks than this are clean, and also if a flusher waits for one. Default:
    /// `DEFAULT_CLEAN_BLOCK_THRESHOLD`. If it is above 1 and the device doesn't have more blocks than it, `build` gives `Config`, since
    /// reclaims would leave no block alone.
    pub fn with_clean_block_threshold(
        self,
        clean_block_threshold: usize,
    ) -> BlockEngineConfig<D, S, C, G>
        ensures { result ≡ record self { sizes = record self.sizes { clean_block_threshold = clean_block_threshold } } }
    {
        let sizes = EngineSizes {
            clean_block_threshold,
            ..self.sizes
        };
        self.with_sizes(sizes)
    }

    /// Whether deletes are logged. Default: `DEFAULT_TOMBSTONE_LOG`.
    pub fn with_tombstone_log(self, tombstone_log: bool) -> BlockEngineConfig<D, S, C, G>
        ensures { result ≡ record self { sizes = record self.sizes { tombstone_log = tombstone_log } } }
    {
        let sizes = EngineSizes {
            tombstone_log,
            ..self.sizes
        };
        self.with_sizes(sizes)
    }

    /// The pickers, in the order in which they are asked. Default: those of `DefaultPickers`.
    pub fn with_eviction_pickers<E: EvictionPicker>(
        self,
        pickers: Vec<E>,
    ) -> BlockEngineConfig<D, GivenPickers<E>, C, G>
        ensures pickers { result.pickers.0 ≡ pickers }
        ensures rest { (result.admission ≡ self.admission) × (result.reinsertion ≡ self.reinsertion) × (result.sizes ≡ self.sizes)
            × (result.device ≡ self.device) × (result.gate ≡ self.gate) }
    {
        let BlockEngineConfig {
            device,
            sizes,
            pickers: _,
            admission,
            reinsertion,
            gate,
        } = self;
        BlockEngineConfig {
            device,
            sizes,
            pickers: GivenPickers(pickers),
            admission,
            reinsertion,
            gate,
        }
    }

    /// What decides which entries are written, before the device's limits of writes are asked, and which records of a reclaimed block are
    /// written again: conditions of one type. Default: all entries, and no record.
    pub fn with_filters<F: StorageFilterCondition>(
        self,
        admission: Option<StorageFilter<F, Global>>,
        reinsertion: Option<StorageFilter<F, Global>>,
    ) -> BlockEngineConfig<D, S, F, G>
        ensures { (result.admission ≡ admission) × (result.reinsertion ≡ reinsertion) × (result.sizes ≡ self.sizes)
            × (result.device ≡ self.device) × (result.pickers ≡ self.pickers) × (result.gate ≡ self.gate) }
    {
        let BlockEngineConfig {
            device,
            sizes,
            pickers,
            admission: _,
            reinsertion: _,
            gate,
        } = self;
        BlockEngineConfig {
            device,
            sizes,
            pickers,
            admission,
            reinsertion,
            gate,
        }
    }

    /// What decides which entries are written, before the device's limits of writes are asked. Default: all are.
    pub fn with_admission_filter(
        self,
        filter: StorageFilter<C, Global>,
    ) -> BlockEngineConfig<D, S, C, G>
        ensures { result ≡ record self { admission = Some filter } }
    {
        BlockEngineConfig {
            admission: Some(filter),
            ..self
        }
    }

    /// What decides which records of a reclaimed block are written again. Default: none are. A reopening loses such a record if a newer one
    /// lies before it in its block, and all records that were written behind it there.
    pub fn with_reinsertion_filter(
        self,
        filter: StorageFilter<C, Global>,
    ) -> BlockEngineConfig<D, S, C, G>
        ensures { result ≡ record self { reinsertion = Some filter } }
    {
        BlockEngineConfig {
            reinsertion: Some(filter),
            ..self
        }
    }

    /// Puts the config into a box. Errors: AllocError if the box was refused.
    pub fn boxed<A: Allocator>(
        self,
        alloc: A,
    ) -> std::result::Result<Box<BlockEngineConfig<D, S, C, G>, A>, AllocError> {
        Ok(Box::new(alloc, self)?)
    }

    /// What holds threads at points that they pass. Default: nothing.
    pub fn with_gate<H: Gate>(self, gate: H) -> BlockEngineConfig<D, S, C, H>
        ensures { (result.admission ≡ self.admission) × (result.reinsertion ≡ self.reinsertion) × (result.sizes ≡ self.sizes)
            × (result.device ≡ self.device) × (result.pickers ≡ self.pickers) × (result.gate ≡ gate) }
    {
        let BlockEngineConfig {
            device,
            sizes,
            pickers,
            admission,
            reinsertion,
            gate: _,
        } = self;
        BlockEngineConfig {
            device,
            sizes,
            pickers,
            admission,
            reinsertion,
            gate,
        }
    }
}
