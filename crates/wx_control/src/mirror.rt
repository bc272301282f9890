// Mirrors of whether a child runs.

use std::alloc::Global;
use std::marker::Model;
use std::sync::Arc;
use std::sync::atomic::{AtomicBool, Ordering};
use wx_text::{Copies, Memory};

/// Whether the child of a job runs, as its task told it last. All copies show the same. One may be read while another
/// thread tells, so what is read may be late, and contracts see nothing of it.
#[derive(Drop, Debug)]
pub struct Mirror {
    runs: Arc<AtomicBool>,
}

impl Model for Mirror {
    ghost Value = { Unit {0} };

    ghost view = { λ _. tt };
}

impl Mirror {
    /// One that shows that no child runs. It fails only for want of memory.
    pub fn new(alloc: Global) -> Result<Mirror, Memory> {
        Ok(Mirror {
            runs: Arc::new(alloc, AtomicBool::new(false))?,
        })
    }

    /// Tells whether the child runs.
    pub fn tell(&self, runs: bool) {
        self.runs.store(runs, Ordering::SeqCst);
    }

    /// What was told last.
    pub fn told(&self) -> bool {
        self.runs.load(Ordering::SeqCst)
    }
}

impl Copies for Mirror {
    /// One more that shows what this one shows.
    fn copy(&self, _alloc: Global) -> Result<Mirror, Memory> {
        Ok(Mirror {
            runs: Arc::try_clone(&self.runs)?,
        })
    }
}
