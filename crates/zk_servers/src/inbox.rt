ghost use Rattle.std.specs.Prelude.{◌≡◌, ◌<◌, IfOk, vec_len};

use crate::pausing::pause;
use crate::waker::Waker;
use crossbeam_channel::{Receiver, Sender as NumberSender, TryRecvError};
use std::alloc::Global;
use std::sync::{Arc, Wait};
use zk_path::NoMemory;

/// The most looks into an inbox before its thread sleeps until a number arrives: some two hundred
/// microseconds. To put a thread to sleep and wake it takes some fifty.
const MOST_LOOKS: u32 = 512;

/// The fewest looks: some thirty microseconds, which lets a thread that slept find the next number
/// without sleeping again.
const FEWEST_LOOKS: u32 = 64;

/// The receiving end of a server's inbox. One thread reads it.
#[derive(Drop)]
pub struct Inbox {
    numbers: Receiver<usize>,
    waker: Arc<Waker, Global>,
    /// The number of looks before its thread sleeps.
    looks: u32,
}

/// The sending end of a server's inbox.
pub struct Sender {
    numbers: NumberSender<usize>,
    waker: Arc<Waker, Global>,
}

/// The sending ends of all inboxes, by server.
#[derive(Drop)]
pub struct Senders {
    ends: Vec<Sender>,
}

#[derive(Drop)]
pub struct Post {
    pub inboxes: Vec<Inbox>,
    pub senders: Senders,
}

/// Returns an inbox for each server.
pub fn inboxes(alloc: Global, servers: usize) -> Result<Post, NoMemory>
    ensures { IfOk result (λ it. vec_len it.inboxes ≡ servers) }
{
    let mut inboxes = Vec::new(alloc);
    inboxes.reserve(servers)?;
    let mut ends = Vec::new(alloc);
    ends.reserve(servers)?;
    for _ in 0..servers {
        let (end, inbox) = new_inbox(alloc)?;
        ends.push_reserved(end);
        inboxes.push_reserved(inbox);
    }
    Ok(Post {
        inboxes,
        senders: Senders { ends },
    })
}

/// Both ends of an inbox. The room that ending it takes is taken here.
fn new_inbox(alloc: Global) -> Result<(Sender, Inbox), NoMemory> {
    let waker = Arc::new(alloc, Waker::new())?;
    let Ok((end, numbers)) = crossbeam_channel::unbounded(alloc) else {
        return Err(NoMemory);
    };
    let inbox = Inbox {
        numbers,
        waker: Arc::try_clone(&waker)?,
        looks: FEWEST_LOOKS,
    };
    let end = Sender {
        numbers: end,
        waker,
    };
    Ok((end, inbox))
}

impl Inbox {
    /// Returns the next number. `None` for the number 0, if the inbox was ended and is empty, and
    /// if no sending end is left.
    pub fn next<R: Wait>(&mut self, rt: &R) -> Option<usize> {
        self.look();
        for _ in rt.forever() {
            // What was sent before the end is in the inbox by now.
            let has_ended = self.waker.has_ended();
            match self.numbers.try_recv(rt) {
                Ok(0) | Err(TryRecvError::Disconnected) => return None,
                Ok(message) => return Some(message),
                Err(TryRecvError::Empty) if has_ended => return None,
                Err(TryRecvError::Empty) => self.waker.sleep(rt),
            }
        }
        unreachable!()
    }

    /// Looks for a number, and doubles the number of looks if one arrived, or halves it. While
    /// numbers arrive in quick succession, the thread does not sleep; otherwise, or if no processor
    /// is free, it hardly looks.
    fn look(&mut self) {
        for _ in 0..self.looks {
            if !self.numbers.is_empty() {
                self.looks = self.looks.saturating_mul(2).min(MOST_LOOKS);
                return;
            }
            pause();
        }
        self.looks = (self.looks / 2).max(FEWEST_LOOKS);
    }
}

impl Sender {
    /// A copy of this end.
    fn copy(&self) -> Result<Sender, NoMemory> {
        let waker = Arc::try_clone(&self.waker)?;
        let Ok(numbers) = self.numbers.clone() else {
            return Err(NoMemory);
        };
        Ok(Sender { numbers, waker })
    }

    /// Sends a number, and wakes the thread of the inbox. Returns `false` if allocation fails, or
    /// if no thread reads the inbox any longer.
    pub fn send<R: Wait>(&self, rt: &R, message: usize) -> bool {
        let was_sent = self.numbers.send(rt, message).is_ok();
        self.waker.wake();
        was_sent
    }
}

/// Wakes the inbox, which may have lost its last sending end.
impl Drop for Sender {
    fn drop(self) {
        let Sender { numbers, waker } = self;
        drop(numbers);
        waker.wake();
    }
}

impl Senders {
    /// A copy of the sending end of a server's inbox.
    pub fn sender(&self, server: usize) -> Option<Sender> {
        self.ends.get(server.checked_sub(1)?)?.copy().ok()
    }

    /// A copy of all ends.
    pub fn copy(&self, alloc: Global) -> Result<Senders, NoMemory> {
        let mut ends = Vec::new(alloc);
        for end in &self.ends {
            ends.push(end.copy()?)?;
        }
        Ok(Senders { ends })
    }

    /// Sends a number to a server; one that can't be sent is lost.
    pub fn send<R: Wait>(&self, rt: &R, server: usize, message: usize) {
        let Some(place) = server.checked_sub(1) else {
            return;
        };
        if let Some(end) = self.ends.get(place) {
            let _ = end.send(rt, message);
        }
    }

    /// Ends each inbox after the numbers that it holds. Never fails, since it allocates no memory.
    pub fn end_all(&self) {
        for end in &self.ends {
            end.waker.end();
        }
    }
}
