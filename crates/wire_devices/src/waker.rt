//! What ends the rest of a link's writer before its time.

use std::alloc::{AllocError, Global};
use std::sync::{Arc, Wait};
use std::thread::Parker;
use std::time::Duration;

/// One thread rests on it, and others wake it. A wake while nobody rests ends the next rest at once.
#[derive(Drop)]
pub struct Waker {
    parker: Arc<Parker, Global>,
}

impl Waker {
    pub fn new(alloc: Global) -> Result<Waker, AllocError> {
        let parker = Arc::new(alloc, Parker::new())?;
        Ok(Waker { parker })
    }

    /// Another handle of the same, where there aren't too many.
    pub(crate) fn another(&self) -> Option<Waker> {
        let parker = Arc::try_clone(&self.parker).ok()?;
        Some(Waker { parker })
    }

    pub(crate) fn wake(&self) {
        self.parker.unpark();
    }

    /// Rests until a wake, and for this long at most. It may end for no reason.
    pub(crate) fn rest<R: Wait>(&self, rt: &R, longest: Duration) {
        self.parker.park_timeout(rt, longest);
    }
}
