//! Gates for tests.

use proxy_turns::Gate;
use resp_wire::NoMemory;
use std::sync::atomic::{AtomicBool, AtomicU64, Ordering};
use std::thread;

/// Of clients with numbers below this one `Open` has news.
pub const WATCHED: u32 = 4;

/// Lets all go on, and has news of all clients that it watches, in each turn.
#[derive(Drop)]
pub struct Open;

impl Gate for Open {
    fn pass(&self, _: u16, _: u64) -> bool {
        true
    }

    fn take_news(&self, news: &mut Vec<u32>) -> Result<(), NoMemory> {
        news.clear();
        for number in 0..WATCHED {
            news.push(number)?;
        }
        Ok(())
    }

    fn time(&self) -> Option<u64> {
        None
    }

    fn next_due(&self, _: Option<u64>) {}

    fn idle(&self) {
        thread::yield_now();
    }
}

/// Two workers wait for each other. Each one's first pass waits until the other's first pass has begun, worker 0's then until
/// worker 1 has answered a command. A pass that has yielded thirty million times says no, and so does every pass after it.
#[derive(Drop)]
pub struct Meeting {
    first_begun: AtomicBool,
    second_begun: AtomicBool,
    answered: AtomicU64,
    refused: AtomicBool,
}

impl Meeting {
    pub fn new() -> Meeting {
        Meeting {
            first_begun: AtomicBool::new(false),
            second_begun: AtomicBool::new(false),
            answered: AtomicU64::new(0),
            refused: AtomicBool::new(false),
        }
    }

    fn wait_for(&self, begun: &AtomicBool) -> bool {
        for _ in 0..30_000_000u32 {
            if begun.load(Ordering::SeqCst) {
                return true;
            }
            thread::yield_now();
        }
        self.refuse()
    }

    fn wait_for_answer(&self) -> bool {
        for _ in 0..30_000_000u32 {
            if self.answered.load(Ordering::SeqCst) > 0 {
                return true;
            }
            thread::yield_now();
        }
        self.refuse()
    }

    fn refuse(&self) -> bool {
        self.refused.store(true, Ordering::SeqCst);
        false
    }

    fn pass_first(&self) -> bool {
        if self.first_begun.swap(true, Ordering::SeqCst) {
            return true;
        }
        self.wait_for(&self.second_begun) && self.wait_for_answer()
    }

    fn pass_second(&self, answered: u64) -> bool {
        self.answered.store(answered, Ordering::SeqCst);
        if self.second_begun.swap(true, Ordering::SeqCst) {
            return true;
        }
        self.wait_for(&self.first_begun)
    }
}

impl Gate for Meeting {
    fn pass(&self, worker: u16, answered: u64) -> bool {
        if self.refused.load(Ordering::SeqCst) {
            return false;
        }
        if worker == 0 {
            self.pass_first()
        } else {
            self.pass_second(answered)
        }
    }

    fn take_news(&self, news: &mut Vec<u32>) -> Result<(), NoMemory> {
        news.clear();
        Ok(())
    }

    fn time(&self) -> Option<u64> {
        None
    }

    fn next_due(&self, _: Option<u64>) {}

    fn idle(&self) {
        thread::yield_now();
    }
}
