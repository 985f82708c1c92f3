//! What the flusher does, as the model does it.
ghost use Rattle.foyer_core_flusher.specs.BatchBegun.{BeginsAsModel};
ghost use Rattle.foyer_core_flusher.specs.BlockIssued.{IssuesAsModel};

/// A batch that `Flusher::begin` makes is the model's, laid out as the splitter does it.
pub fn begins_as_model<K, V, P, A>()
    ensures { BeginsAsModel K V P A }
{}

/// What `Batch::issue` gives are the model's writes of the batch's next block, in their order, the data of a part before its index.
pub fn issues_as_model<K, V, P, A>()
    ensures { IssuesAsModel K V P A }
{}
