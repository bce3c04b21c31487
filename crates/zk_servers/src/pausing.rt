use std::hint::spin_loop;

/// The length of a pause: some hundreds of nanoseconds.
const SPINS: u32 = 8;

/// Waits for a moment, without letting other threads run, before a thread looks again at what
/// another one may change.
pub fn pause() {
    for _ in 0..SPINS {
        spin_loop();
    }
}
