//! What holds of quotas and of texts.
ghost use Rattle.foyer_device_throttle.specs.Quota.{LastPollCounts};
ghost use Rattle.foyer_device_throttle.specs.Meter.{RecordingsCount};
ghost use Rattle.foyer_device_throttle.specs.Text.{TextsReadBack};

/// Polls without a record between them, none at a later moment than the last one, leave the quota that the last alone leaves.
pub fn last_poll_counts()
    ensures { LastPollCounts }
{}

/// What is recorded between two polls lessens the quota, though a meter sees it only at the later one.
pub fn recordings_count()
    ensures { RecordingsCount }
{}

/// The text of a way to count calls reads back as this way.
pub fn texts_read_back()
    ensures { TextsReadBack }
{}
