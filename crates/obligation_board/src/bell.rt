//! A bell: a count of rings, on which threads sleep until the next one.
use std::sync::Wait;
use std::sync::atomic::{AtomicU64, Ordering};

/// A count of rings, and of those who may sleep on it. It tells nothing of the board: who wakes looks again.
#[derive(Drop)]
pub(crate) struct Bell {
    rings: AtomicU64,
    sleepers: AtomicU64,
}

impl Bell {
    pub(crate) fn new() -> Bell {
        Bell {
            rings: AtomicU64::new(0),
            sleepers: AtomicU64::new(0),
        }
    }

    /// How often it rang. What a thread remembers before it looks at the board.
    pub(crate) fn count(&self) -> u64 {
        self.rings.load(Ordering::SeqCst)
    }

    /// Counts one more, and wakes those who sleep. It comes after what it tells of.
    pub(crate) fn ring(&self) {
        self.rings.fetch_add(1, Ordering::SeqCst);
        if self.sleepers.load(Ordering::SeqCst) > 0 {
            self.rings.wake_all();
        }
    }

    /// Sleeps until it rings, and not at all where it rang since the count was `heard`.
    pub(crate) fn wait_past<R: Wait>(&self, rt: &R, heard: u64) {
        self.sleepers.fetch_add(1, Ordering::SeqCst);
        for _ in rt.forever() {
            if self.count() != heard {
                break;
            }
            self.rings.park(rt, (heard % (1 << 32)) as u32);
        }
        self.sleepers.fetch_sub(1, Ordering::SeqCst);
    }
}
