//! The program's arguments.
ghost use Rattle.std.specs.Prelude.{◌≡◌, ◌&&◌, Some, None, MatchOption, MatchResult, if◌then◌else◌, map, nat_le, string_bytes};
ghost use Rattle.foyer_pipe.specs.Settings.{AreSettings, core_count, default_options, flag, IsFirstBad, IsSetting, IsWord, mode_text, set_number, setting_name};
ghost use Rattle.foyer_block_recover.specs.declared.block.recover.RecoverMode.{RecoverMode};
ghost use Rattle.foyer_pipe.specs.declared.options.Setting.{Setting};

use foyer_cli::command::number;
use foyer_cli::options::Options;
use foyer_cli::words::{BadWord, sizes_of};
use foyer_frames::request::Limits;
use foyer_storage_cores_run::build::engine::core_steps::open::RecoverMode;
use std::alloc::Allocator;

/// Printed if the arguments are bad.
pub const USAGE: &str = "usage: foyerpipe DIR CAPACITY BLOCK [NAME=VALUE..]\n";

/// Printed after the usage, by `--help` and if a setting is bad.
pub const SETTINGS: &str = "\
DIR is a directory, or :memory:. CAPACITY and BLOCK are bytes.
  flushers=N reclaimers=N engines=N   threads that write and that reclaim, and I/O engines for gets: 1 to 1024 of each
  readers=N                           threads that answer gets: up to 1024
  wait_ms=N                           how long a put waits for room in the queue: 60000 if not given, 0 for not at all
  patience=N                          how often such a put looks again at once, before its key is deleted
  cores=1, 2 or 4                     cores, each with its part of keys and capacity
  seed=N                              a number that each key is prefixed with
  clean=N                             reclaims begin if fewer than N blocks are clean
  log=0 or 1                          whether deletes last over restarts: as the directory was made, 1 if it is new
  recover=quiet, strict or none       what an opening does if a block can't be read
  read_bytes=N read_calls=N           limits in a second, 0 for none
  write_bytes=N write_calls=N
  key=N value=N                       the most bytes of a key and of a value: 1 to 1073741824
";

/// The cache's settings, besides its directory and sizes.
#[derive(Clone, Copy, Debug, PartialEq, Eq)]
pub struct PipeOptions {
    /// How many threads of each core write.
    pub flushers: u32,
    /// How many threads of each core reclaim.
    pub reclaimers: u32,
    /// Through how many I/O engines of each core gets read.
    pub engines: usize,
    /// How many threads answer gets, besides the one that reads requests.
    pub readers: u32,
    /// If a put finds too much queued, for how many milliseconds it waits for room at most.
    pub wait_ms: u32,
    /// If it finds none then, how often it looks again at once before its key is deleted.
    pub patience: u32,
    /// A number that each key is prefixed with, as eight bytes, the lowest first. With 0 keys have no prefix.
    pub seed: u64,
    /// How many cores there are: 1, 2 or 4. Each has its part of the keys and of the capacity, and threads of its own.
    pub cores: u64,
    /// A reclaim may begin if fewer of a core's blocks than this are clean.
    pub clean: usize,
    /// Whether deletes are logged. `None`: as the directory was made, and with a log if it is new. The memory has none then.
    pub log: Option<bool>,
    /// What an opening reads, and what it does if it can't read all of a block.
    pub mode: RecoverMode,
    /// How many bytes may be read and written in a second, and by how many calls. The cores share these limits equally. 0 is no limit.
    pub read_bytes: usize,
    pub write_bytes: usize,
    pub read_calls: usize,
    pub write_calls: usize,
    /// The most bytes of a key and of a value in a frame.
    pub limits: Limits,
}

/// The most bytes of a key, if no other number is given.
pub const DEFAULT_KEY_BYTES: u32 = 1 << 16;

/// The most bytes of a value, if no other number is given.
pub const DEFAULT_VALUE_BYTES: u32 = 1 << 26;

/// For how many milliseconds a put waits for room, if no other number is given.
pub const DEFAULT_WAIT_MS: u32 = 60_000;

/// A setting whose value is a number.
#[derive(Clone, Copy, Debug, PartialEq, Eq)]
pub enum Setting {
    Flushers,
    Reclaimers,
    Engines,
    Readers,
    WaitMs,
    Patience,
    Seed,
    Cores,
    Clean,
    Log,
    ReadBytes,
    WriteBytes,
    ReadCalls,
    WriteCalls,
    Key,
    Value,
}

impl Setting {
    /// The setting of a name. `None` if none has it.
    pub fn of_name(name: &str) -> Option<Setting>
        ensures { MatchOption result ((s : Setting) → ¬ (name.now ≡ setting_name s)) (λ s. name.now ≡ setting_name s) }
    {
        match name {
            "flushers" => Some(Setting::Flushers),
            "reclaimers" => Some(Setting::Reclaimers),
            "engines" => Some(Setting::Engines),
            "readers" => Some(Setting::Readers),
            "wait_ms" => Some(Setting::WaitMs),
            "patience" => Some(Setting::Patience),
            "seed" => Some(Setting::Seed),
            "cores" => Some(Setting::Cores),
            "clean" => Some(Setting::Clean),
            "log" => Some(Setting::Log),
            "read_bytes" => Some(Setting::ReadBytes),
            "write_bytes" => Some(Setting::WriteBytes),
            "read_calls" => Some(Setting::ReadCalls),
            "write_calls" => Some(Setting::WriteCalls),
            "key" => Some(Setting::Key),
            "value" => Some(Setting::Value),
            _ => None,
        }
    }
}

// The mode that a text names. `None` if it names none.
fn mode_of(text: &str) -> Option<RecoverMode>
    ensures { MatchOption result ((m : RecoverMode) → ¬ (text.now ≡ mode_text m)) (λ m. text.now ≡ mode_text m) }
{
    match text {
        "quiet" => Some(RecoverMode::Quiet),
        "strict" => Some(RecoverMode::Strict),
        "none" => Some(RecoverMode::None),
        _ => None,
    }
}

impl PipeOptions {
    /// Gives the defaults: one flusher, one reclaimer, one I/O engine for gets, no thread for gets alone, a minute's wait for room, no
    /// patience, no seed, one core, one clean block, the directory's log, the mode `quiet`, no limits of reads or writes, keys of 64 KiB and
    /// values of 64 MiB at most.
    pub fn new() -> PipeOptions
        ensures { result ≡ default_options }
    {
        PipeOptions {
            flushers: 1,
            reclaimers: 1,
            engines: 1,
            readers: 0,
            wait_ms: DEFAULT_WAIT_MS,
            patience: 0,
            seed: 0,
            cores: 1,
            clean: 1,
            log: None,
            mode: RecoverMode::Quiet,
            read_bytes: 0,
            write_bytes: 0,
            read_calls: 0,
            write_calls: 0,
            limits: Limits {
                key: DEFAULT_KEY_BYTES,
                value: DEFAULT_VALUE_BYTES,
            },
        }
    }

    /// With this number for a setting. `None` if the setting can't have it.
    pub fn with_number(mut self, setting: Setting, number: u64) -> Option<PipeOptions>
        ensures { result ≡ set_number setting number self }
    {
        let few = count_of(number, 1024);
        let any = number as usize;
        match setting {
            Setting::Flushers => self.flushers = few?,
            Setting::Reclaimers => self.reclaimers = few?,
            Setting::Engines => self.engines = few? as usize,
            Setting::Readers => self.readers = up_to(number, 1024)?,
            Setting::WaitMs => self.wait_ms = up_to(number, u32::MAX)?,
            Setting::Patience => self.patience = up_to(number, u32::MAX)?,
            Setting::Seed => self.seed = number,
            Setting::Cores => self.cores = cores_of(number)?,
            Setting::Clean => self.clean = any,
            Setting::Log => self.log = Some(flag_of(number)?),
            Setting::ReadBytes => self.read_bytes = any,
            Setting::WriteBytes => self.write_bytes = any,
            Setting::ReadCalls => self.read_calls = any,
            Setting::WriteCalls => self.write_calls = any,
            Setting::Key => self.limits.key = count_of(number, 1 << 30)?,
            Setting::Value => self.limits.value = count_of(number, 1 << 30)?,
        }
        Some(self)
    }

    /// With a setting of this name whose value this text is. `None` if the name or the value is bad.
    pub fn with(self, name: &str, text: &str) -> Option<PipeOptions>
        ensures { MatchOption result ((o : _) → ¬ IsSetting name.now text.now self o) (IsSetting name.now text.now self) }
    {
        if name == "recover" {
            let mode = mode_of(text)?;
            return Some(PipeOptions { mode, ..self });
        }
        let setting = Setting::of_name(name)?;
        self.with_number(setting, number(text.as_bytes())?)
    }

    // With the setting that a word `NAME=VALUE` is. `None` if it is none.
    fn with_word(self, word: &str) -> Option<PipeOptions>
        ensures { MatchOption result ((o : _) → ¬ IsWord word.now self o) (IsWord word.now self) }
    {
        let (name, text) = word.split_once('=')?;
        self.with(name, text)
    }

    /// Reads settings, each a word `NAME=VALUE`, over the defaults. If a name is there twice, the later value counts. If a word is bad, gives
    /// the place of the first such word.
    pub fn parse<A: Allocator>(words: &[String<A>]) -> std::result::Result<PipeOptions, usize>
        ensures { MatchResult result (AreSettings default_options (map string_bytes words.now)) (IsFirstBad (map string_bytes words.now)) }
    {
        let mut options = PipeOptions::new();
        let mut place = 0;
        for word in words {
            match options.with_word(word.as_str()) {
                Some(changed) => options = changed,
                None => return Err(place),
            }
            place += 1;
        }
        Ok(options)
    }
}

// The number, if it is at most `greatest`.
fn up_to(number: u64, greatest: u32) -> Option<u32>
    ensures { result ≡ (if nat_le number greatest then Some number else None) }
{
    let count = u32::try_from(number).ok()?;
    if count > greatest {
        return None;
    }
    Some(count)
}

// The number, if it is from 1 to `greatest`.
fn count_of(number: u64, greatest: u32) -> Option<u32>
    ensures { result ≡ (if nat_le 1 number && nat_le number greatest then Some number else None) }
{
    let count = up_to(number, greatest)?;
    if count == 0 {
        return None;
    }
    Some(count)
}

// The number, if a store can have this many cores: 1, 2 or 4.
fn cores_of(number: u64) -> Option<u64>
    ensures { result ≡ core_count number }
{
    match number {
        1 | 2 | 4 => Some(number),
        _ => None,
    }
}

fn flag_of(number: u64) -> Option<bool>
    ensures { result ≡ flag number }
{
    match number {
        0 => Some(false),
        1 => Some(true),
        _ => None,
    }
}

/// The words of a call, which were read.
#[derive(Clone, Copy)]
pub struct Words<'a> {
    /// The directory and the sizes.
    pub sizes: Options<'a>,
    /// The settings.
    pub settings: PipeOptions,
}

/// Reads the directory, the sizes and the settings. If a word is bad, says which.
pub fn parse_words<A: Allocator>(
    words: &[String<A>],
) -> std::result::Result<Words<'_>, BadWord<'_>> {
    let sizes = sizes_of(words)?;
    match PipeOptions::parse(&words[3..]) {
        Ok(settings) => Ok(Words { sizes, settings }),
        Err(place) => Err(BadWord {
            what: "no such setting, or a bad value: ",
            word: match words.get(place + 3) {
                Some(word) => word.as_str(),
                None => "",
            },
        }),
    }
}
