//! When a worker wakes the threads that compact and that fold.

use crossbeam_channel::Sender;
use std::sync::Wait;

/// The compactor is woken after so many puts, however few cells they have.
const WAKING_PUTS: u64 = 8;

/// The worker's share of what others do beside the puts: whom it wakes, and what it has put since. A message for each
/// put would cost more than a put of one cell.
#[derive(Drop)]
pub(crate) struct Wakes<'a> {
    compactor: Option<&'a Sender<()>>,
    folder: Option<&'a Sender<()>>,
    // Puts and cells since the compactor was woken.
    puts: u64,
    cells: u64,
    // Cells since the folder was woken.
    unfolded: u64,
}

// Wakes a thread, if there is one. It waits for no room: where there is none, a message is there that hasn't been seen.
fn wake<R: Wait>(rt: &R, woken: Option<&Sender<()>>) {
    if let Some(woken) = woken {
        let _ = woken.try_send(rt, ());
    }
}

impl<'a> Wakes<'a> {
    /// Wakes whoever receives from these, where there are such. Nothing was put yet.
    pub(crate) fn new(
        compactor: Option<&'a Sender<()>>,
        folder: Option<&'a Sender<()>>,
    ) -> Wakes<'a> {
        Wakes {
            compactor,
            folder,
            puts: 0,
            cells: 0,
            unfolded: 0,
        }
    }

    /// The same, which also wakes whoever receives from `folder`.
    pub(crate) fn with_folder(self, folder: Option<&'a Sender<()>>) -> Wakes<'a> {
        let mut wakes = self;
        wakes.folder = folder;
        wakes
    }

    /// A put of so many cells was accepted. The compactor is woken at every eighth put, and once as many cells were put
    /// as the first cut has, if there is one; the folder once as many were put as wake it.
    pub(crate) fn note_put<R: Wait>(
        &mut self,
        rt: &R,
        cells: u64,
        cut: Option<u64>,
        waking_cells: u64,
    ) {
        self.puts = self.puts.saturating_add(1);
        self.cells = self.cells.saturating_add(cells);
        self.unfolded = self.unfolded.saturating_add(cells);
        if self.puts >= WAKING_PUTS || cut.is_some_and(|cut| self.cells >= cut) {
            wake(rt, self.compactor);
            self.puts = 0;
            self.cells = 0;
        }
        if self.unfolded >= waking_cells {
            wake(rt, self.folder);
            self.unfolded = 0;
        }
    }

    /// No more is put: wakes both where anything was put since.
    pub(crate) fn end<R: Wait>(&self, rt: &R) {
        if self.puts > 0 {
            wake(rt, self.compactor);
        }
        if self.unfolded > 0 {
            wake(rt, self.folder);
        }
    }
}
