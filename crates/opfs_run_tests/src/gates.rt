//! Gates that hold an agent back.

use opfs_outside::Gate;
use std::sync::atomic::{AtomicU64, Ordering};
use std::thread::yield_now;

// How often a gate looks before it gives up.
const LOOKS: u64 = 1_000_000_000;

// What one agent waits for and another tells.
#[derive(Drop)]
pub struct Signal {
    told: AtomicU64,
    given_up: AtomicU64,
}

impl Signal {
    pub fn make() -> Signal {
        Signal {
            told: AtomicU64::new(0),
            given_up: AtomicU64::new(0),
        }
    }

    pub fn tell(&self) {
        self.told.store(1, Ordering::SeqCst);
    }

    pub fn wait(&self) {
        for _ in 0..LOOKS {
            if self.told.load(Ordering::SeqCst) > 0 {
                return;
            }
            yield_now();
        }
        self.given_up.store(1, Ordering::SeqCst);
    }

    // Whether it was told, and nobody gave up.
    pub fn is_kept(&self) -> bool {
        let told = self.told.load(Ordering::SeqCst);
        let given_up = self.given_up.load(Ordering::SeqCst);
        told > given_up
    }
}

// Holds one agent before its first step until the other's first step is answered.
#[derive(Drop)]
pub struct Hold {
    pub held: u32,
    pub signal: Signal,
}

impl Gate for Hold {
    fn before(&self, agent: u32, step: u32) {
        if agent == self.held && step == 1 {
            self.signal.wait();
        }
    }

    fn after(&self, agent: u32, step: u32) {
        if agent != self.held && step == 1 {
            self.signal.tell();
        }
    }
}

// An agent, a step of it, and how long it is late there.
pub type Delay = (u32, u32, u32);

// Whether a delay is at this step.
fn is_at(delay: &Delay, agent: u32, step: u32) -> bool {
    delay.0 == agent && delay.1 == step
}

// Is as late as the delays say that are at this step.
fn delay_at(delays: &[Delay], agent: u32, step: u32) {
    for delay in delays {
        if is_at(delay, agent, step) {
            for _ in 0..delay.2 {
                yield_now();
            }
        }
    }
}

// Lets agents be late before and after steps.
#[derive(Drop)]
pub struct Late<'a> {
    pub before: &'a [Delay],
    pub after: &'a [Delay],
}

impl Gate for Late<'_> {
    fn before(&self, agent: u32, step: u32) {
        delay_at(self.before, agent, step);
    }

    fn after(&self, agent: u32, step: u32) {
        delay_at(self.after, agent, step);
    }
}
