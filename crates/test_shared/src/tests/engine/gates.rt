//! Threads at a gate.
use super::{is_raised, raise};
use foyer_io_gate::gate::{Gate, OpenGate, Point};
use std::sync::atomic::{AtomicBool, Ordering};
use std::thread;

// Holds who comes to one point until it is opened, for a bounded number of turns.
#[derive(Drop)]
struct HoldingGate {
    point: Point,
    came: AtomicBool,
    is_open: AtomicBool,
}

impl HoldingGate {
    fn at(point: Point) -> HoldingGate {
        HoldingGate {
            point,
            came: AtomicBool::new(false),
            is_open: AtomicBool::new(false),
        }
    }
}

impl Gate for HoldingGate {
    fn pass(&self, point: Point) {
        if point == self.point {
            raise(&self.came);
            is_raised(&self.is_open);
        }
    }
}

// Passes all points in their order, and says so behind the first and behind the last.
fn pass_all(gate: &impl Gate, first: &AtomicBool, last: &AtomicBool) {
    gate.pass(Point::FlushWrite);
    raise(first);
    gate.pass(Point::LoadRead);
    gate.pass(Point::Reclaim);
    raise(last);
}

#[test]
fn an_open_gate_holds_nobody(rt: HostRuntime) {
    let first = AtomicBool::new(false);
    let last = AtomicBool::new(false);
    pass_all(&OpenGate::default(), &first, &last);
    assert!(rt; last.load(Ordering::SeqCst));
}

#[test]
fn a_gate_holds_a_thread_at_its_point(rt: HostRuntime) {
    let gate = HoldingGate::at(Point::LoadRead);
    let first = AtomicBool::new(false);
    let last = AtomicBool::new(false);
    let let_through = || {
        let came = is_raised(&gate.came);
        let is_held = first.load(Ordering::SeqCst) && !last.load(Ordering::SeqCst);
        raise(&gate.is_open);
        came && is_held
    };
    let (is_held, ()) = thread::join(&rt, let_through, || pass_all(&gate, &first, &last));
    assert!(rt; is_held);
    assert!(rt; last.load(Ordering::SeqCst));
}
