//! What a header's and a record's bytes are, and that they read back.
ghost use Rattle.std.specs.Prelude.{◌≡◌, ◌<◌, ◌^◌, ℕ, List, Bool, true, length, Ok};
ghost use Rattle.foyer_format_record.specs.Header.{header_bytes, header_of, FitsFields};
ghost use Rattle.foyer_format_record.specs.Vectors.{HeaderVector};
ghost use Rattle.foyer_format_record.specs.Record.{pair_of, record_bytes};
ghost use Rattle.foyer_format_record.specs.Record.{Outcome as outcome};
ghost use Rattle.foyer_format_record.specs.declared.block.serde.EntryHeader.{EntryHeader};

/// A header in bytes.
#[tactic(auto, unfolding(crate::specs::Header::header_bytes))]
pub fn header_vector()
    ensures { HeaderVector }
{}

/// A header is read as it was written.
#[tactic(auto, using(crate::proofs::HeaderLemmas::header_again_of))]
pub fn header_read_back()
    ensures { (h : EntryHeader) → FitsFields h → header_of (header_bytes h) ≡ Ok h }
{}

/// A record's bytes read back as its pair.
#[tactic(auto, using(crate::proofs::RecordLemmas::pair_again))]
pub fn record_read_back()
    ensures { (is_key is_value : List ℕ → Bool) (hash sequence : ℕ) (key value : List ℕ)
        → hash < 2 ^ 64 → sequence < 2 ^ 64 → length key < 2 ^ 32 → length value < 2 ^ 32
        → is_key key ≡ true → is_value value ≡ true
        → pair_of is_key is_value (record_bytes hash sequence key value) hash sequence
        ≡ outcome.Pair key value }
{}
