//! What a desk has promised.
ghost use Rattle.std.specs.Prelude.{◌≡◌, ◌+◌, ◌<◌, ◌^◌};

use std::marker::Model;

/// Pages of a log that are promised to puts. Contracts see how many.
///
/// None but the state behind a desk's lock makes it of pages, and counts them as promised. It isn't Drop:
/// `LogDesk::leave` takes it back, once the batches are durable or were refused.
pub struct Ticket {
    pages: u64,
}

impl Model for Ticket {
    ghost use Rattle.std.specs.Prelude.{ℕ};
    ghost use Rattle.std.specs.Coded.{coded_ℕ};

    ghost Value = { ℕ };

    ghost coded = { coded_ℕ };

    ghost view = { λ t. t.pages };
}

impl Ticket {
    // So many pages, which the desk has set aside.
    pub(super) fn new(pages: u64) -> Ticket
        ensures { result ≡ pages }
    {
        Ticket { pages }
    }

    /// No pages: what a session holds that has begun no put.
    pub fn none() -> Ticket
        ensures { result ≡ 0 }
    {
        Ticket::new(0)
    }

    /// Adds another's pages, so that all go back together. No desk promises more pages than 64 bits count.
    pub fn join(&mut self, other: Ticket)
        ensures { self.old + other < 2 ^ 64 → self.new ≡ self.old + other }
    {
        self.pages = self.pages.saturating_add(other.into_pages());
    }

    // How many pages go back.
    pub(super) fn into_pages(self) -> u64
        ensures { result ≡ self }
    {
        let Ticket { pages } = self;
        pages
    }
}
