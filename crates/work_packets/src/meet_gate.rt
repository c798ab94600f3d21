//! A gate at which one thread waits for another.

ghost use Rattle.std.specs.Prelude.{◌≡◌};

use crate::gate::{Gate, Point};
use std::hint;
use std::sync::atomic::{AtomicBool, Ordering};

/// The most turns for which a thread is held.
pub const MAX_TURNS: u32 = 100_000_000;

/// A gate for tests. It holds `first` at a point until `second` has passed there, or for
/// `MAX_TURNS` turns. Then it holds nobody any more.
#[derive(Debug, Drop)]
pub struct MeetGate {
    first: u32,
    second: u32,
    point: Point,
    passed: AtomicBool,
    missed: AtomicBool,
}

impl MeetGate {
    /// A gate that holds `first` at `point` until `second` has passed there. The numbers are those
    /// of `Gate::pass`.
    pub fn new(first: u32, second: u32, point: Point) -> MeetGate
        ensures first { result.first ≡ first }
        ensures second { result.second ≡ second }
        ensures point { result.point ≡ point }
    {
        MeetGate {
            first,
            second,
            point,
            passed: AtomicBool::new(false),
            missed: AtomicBool::new(false),
        }
    }

    /// Whether `first` was let go although `second` had not passed.
    pub fn missed(&self) -> bool {
        self.missed.load(Ordering::SeqCst)
    }

    // Holds the thread until `second` has passed.
    fn hold(&self) {
        for _turn in 0..MAX_TURNS {
            if self.passed.load(Ordering::SeqCst) || self.missed() {
                return;
            }
            hint::spin_loop();
        }
        self.missed.store(true, Ordering::SeqCst);
    }
}

impl Gate for MeetGate {
    fn pass(&self, who: u32, point: Point) {
        if point != self.point {
            return;
        }
        if who == self.second {
            self.passed.store(true, Ordering::SeqCst);
        }
        if who == self.first {
            self.hold();
        }
    }
}
