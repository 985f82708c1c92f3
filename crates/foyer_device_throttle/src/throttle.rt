//! Limits of a device's reads and writes.
ghost use Rattle.std.specs.Prelude.{◌≡◌, None};
ghost use Rattle.foyer_device_throttle.specs.Limits.{IsLimit};

use crate::iops::IopsCounter;
use std::num::NonZeroUsize;

/// The limits of a device's reads and writes, each a number a second.
#[derive(Clone, Copy, Debug, PartialEq, Eq)]
pub struct Throttle {
    /// Calls that write.
    pub write_iops: Option<NonZeroUsize>,
    /// Calls that read.
    pub read_iops: Option<NonZeroUsize>,
    /// Bytes written.
    pub write_throughput: Option<NonZeroUsize>,
    /// Bytes read.
    pub read_throughput: Option<NonZeroUsize>,
    /// How calls are counted.
    pub iops_counter: IopsCounter,
}

impl Throttle {
    /// No limits; each call counts 1.
    pub fn new() -> Throttle
        ensures { result ≡ record {
          write_iops = None;
          read_iops = None;
          write_throughput = None;
          read_throughput = None;
          iops_counter = IopsCounter.PerIo;
        } }
    {
        Throttle {
            write_iops: None,
            read_iops: None,
            write_throughput: None,
            read_throughput: None,
            iops_counter: IopsCounter::PerIo,
        }
    }

    /// With a limit of calls that write; 0 is none.
    pub fn with_write_iops(self, iops: usize) -> Throttle
        ensures limit { IsLimit result.write_iops iops }
        ensures others { result ≡ record self { write_iops = result.write_iops } }
    {
        Throttle {
            write_iops: NonZeroUsize::new(iops),
            ..self
        }
    }

    /// With a limit of calls that read; 0 is none.
    pub fn with_read_iops(self, iops: usize) -> Throttle
        ensures limit { IsLimit result.read_iops iops }
        ensures others { result ≡ record self { read_iops = result.read_iops } }
    {
        Throttle {
            read_iops: NonZeroUsize::new(iops),
            ..self
        }
    }

    /// With a limit of bytes written; 0 is none.
    pub fn with_write_throughput(self, throughput: usize) -> Throttle
        ensures limit { IsLimit result.write_throughput throughput }
        ensures others { result ≡ record self { write_throughput = result.write_throughput } }
    {
        Throttle {
            write_throughput: NonZeroUsize::new(throughput),
            ..self
        }
    }

    /// With a limit of bytes read; 0 is none.
    pub fn with_read_throughput(self, throughput: usize) -> Throttle
        ensures limit { IsLimit result.read_throughput throughput }
        ensures others { result ≡ record self { read_throughput = result.read_throughput } }
    {
        Throttle {
            read_throughput: NonZeroUsize::new(throughput),
            ..self
        }
    }

    /// With another way to count calls.
    pub fn with_iops_counter(self, counter: IopsCounter) -> Throttle
        ensures { result ≡ record self { iops_counter = counter } }
    {
        Throttle {
            iops_counter: counter,
            ..self
        }
    }
}

impl Default for Throttle {
    ghost use Rattle.foyer_device_throttle.specs.declared.iops.IopsCounter.TheVariants.{PerIo};

    ghost is_default = { λ t. t ≡ record {
      write_iops = None;
      read_iops = None;
      write_throughput = None;
      read_throughput = None;
      iops_counter = PerIo;
    } };

    /// No limits.
    fn default() -> Throttle {
        Throttle::new()
    }
}
