//! A gate that holds threads at a point until it is opened.
use foyer_io_gate::gate::{Gate, Point};
use std::alloc::{AllocError, Global};
use std::sync::Arc;
use std::sync::atomic::{AtomicBool, Ordering};
use std::thread;

// How many turns a thread waits for a flag.
const TURNS: u32 = 1_000_000;

fn is_raised(flag: &AtomicBool) -> bool {
    for _ in 0..TURNS {
        if flag.load(Ordering::SeqCst) {
            return true;
        }
        thread::yield_now();
    }
    false
}

#[derive(Drop)]
struct Flags {
    is_reached: AtomicBool,
    is_open: AtomicBool,
    // Whether a thread went on though nobody opened.
    has_given_up: AtomicBool,
}

/// Holds a thread at a point until the gate is open, at most a million turns. A gate that holds whoever recovers block 0 is
/// opened by whoever recovers block 1. What is shared is the same gate.
#[derive(Drop)]
pub(crate) struct HoldingGate {
    point: Option<Point>,
    naps: bool,
    flags: Arc<Flags, Global>,
}

impl HoldingGate {
    /// Makes a gate that holds at this point, or nowhere. If it naps, a thread lets others go first at every point.
    pub(crate) fn new(
        alloc: Global,
        point: Option<Point>,
        naps: bool,
    ) -> Result<HoldingGate, AllocError> {
        let flags = Flags {
            is_reached: AtomicBool::new(false),
            is_open: AtomicBool::new(false),
            has_given_up: AtomicBool::new(false),
        };
        Ok(HoldingGate {
            point,
            naps,
            flags: Arc::new(alloc, flags)?,
        })
    }

    /// The same gate.
    pub(crate) fn share(&self) -> Result<HoldingGate, AllocError> {
        Ok(HoldingGate {
            point: self.point,
            naps: self.naps,
            flags: Arc::try_clone(&self.flags)?,
        })
    }

    /// Whether a thread reaches the point. It may start late, so it is waited for longer than it is held.
    pub(crate) fn is_reached(&self) -> bool {
        for _ in 0..1000 {
            if is_raised(&self.flags.is_reached) {
                return true;
            }
        }
        false
    }

    /// Whether no thread went on by itself.
    pub(crate) fn is_holding(&self) -> bool {
        !self.flags.has_given_up.load(Ordering::SeqCst)
    }

    /// Lets threads go on.
    pub(crate) fn open(&self) {
        self.flags.is_open.store(true, Ordering::SeqCst);
    }
}

// Lets other threads go first, a thousand times.
fn nap() {
    for _ in 0..1000 {
        thread::yield_now();
    }
}

impl Gate for HoldingGate {
    fn pass(&self, point: Point) {
        if self.point == Some(Point::RecoverRead(0)) && point == Point::RecoverRead(1) {
            self.open();
        }
        if self.naps {
            nap();
        }
        if self.point == Some(point) {
            self.flags.is_reached.store(true, Ordering::SeqCst);
            if !is_raised(&self.flags.is_open) {
                self.flags.has_given_up.store(true, Ordering::SeqCst);
            }
        }
    }
}
