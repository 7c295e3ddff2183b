//! Taking a lock that is mostly held only for a moment.

use std::hint::spin_loop;
use std::sync::{Mutex, MutexGuard, Wait};

/// The number of tries before a thread sleeps. An act holds its locks for less than a microsecond;
/// to sleep and be woken takes several, in which more threads come to wait and sleep.
const LOCK_TRIES: u32 = 200;

/// The number of pauses of the processor between two tries, about 40 nanoseconds each.
const PAUSES: u32 = 8;

/// Takes the lock, as soon as it is free.
pub fn take_lock<'a, T, R: Wait>(lock: &'a Mutex<T>, rt: &R) -> MutexGuard<'a, T> {
    for _ in 0..LOCK_TRIES {
        if let Some(guard) = lock.try_lock() {
            return guard;
        }
        pause();
    }
    lock.lock(rt)
}

/// Waits for a part of a microsecond, in which no try disturbs the thread that holds the lock.
fn pause() {
    for _ in 0..PAUSES {
        spin_loop();
    }
}
