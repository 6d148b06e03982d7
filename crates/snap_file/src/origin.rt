//! Whose a file is.
ghost use Rattle.std.specs.Prelude.{◌≡◌, ◌↔◌, true, IfSome};
ghost use Rattle.snap_file.specs.Origins.{IsIdentity, IsOtherBook, has_book, no_window, own, unknown};

use std::random::RandomSource;

/// The window of a book that has none.
pub const NO_WINDOW: u64 = u64::MAX;

/// A book, by 128 bits, and a window of it. A book that begins draws them (`Identity::draw`).
#[derive(Clone, Copy, Debug, PartialEq, Eq)]
pub struct Identity {
    /// The first eight bytes of the book's identity. All sixteen are 0 where the book isn't known.
    pub book_high: u64,
    /// The last eight.
    pub book_low: u64,
    /// The window's number, or `NO_WINDOW`.
    pub window: u64,
}

/// What a snapshot says of itself beside its contents.
#[derive(Clone, Copy, Debug, PartialEq, Eq)]
pub struct Origin {
    pub identity: Identity,
    /// Whether a log goes with the file: then the file alone may lack batches that were accepted. Where the book isn't
    /// known, `false` says nothing: servers with a log once wrote it too.
    pub has_log: bool,
}

impl Identity {
    /// No known book, and no window: the identity of each file whose version doesn't say one.
    pub fn unknown() -> Identity
        ensures { result ≡ unknown.identity }
    {
        Identity {
            book_high: 0,
            book_low: 0,
            window: NO_WINDOW,
        }
    }
}

impl Identity {
    /// Draws the identity of a new book without windows from the system's random numbers. None where there are none.
    pub fn draw<R: RandomSource>(rt: &R) -> Option<Identity>
        ensures book { IfSome result (λ i. has_book i ≡ true) }
        ensures window { IfSome result (λ i. i.window ≡ no_window) }
        ensures fits { IfSome result IsIdentity }
    {
        let mut high = [0u8; 8];
        let mut low = [0u8; 8];
        rt.fill_bytes(&mut high).ok()?;
        rt.fill_bytes(&mut low).ok()?;
        Some(Identity {
            book_high: u64::from_be_bytes(high),
            // A book whose number is 0 isn't known.
            book_low: u64::from_be_bytes(low).max(1),
            window: NO_WINDOW,
        })
    }

    /// Whether the book is known.
    pub fn has_book(&self) -> bool
        ensures { result ≡ has_book self.now }
    {
        self.book_high >= 1 || self.book_low >= 1
    }

    /// Whether both books are known, and they or their windows differ.
    pub fn is_other(&self, other: &Identity) -> bool
        ensures { (result ≡ true) ↔ IsOtherBook self.now other.now }
    {
        self.has_book() && other.has_book() && *self != *other
    }

    /// The identity that goes on from this one of a snapshot and `found` of a log: the one whose book is known, and
    /// where none is, `drawn`.
    pub fn or_else(self, found: Identity, drawn: Identity) -> Identity
        ensures { result ≡ own self found drawn }
    {
        if self.has_book() {
            self
        } else if found.has_book() {
            found
        } else {
            drawn
        }
    }

    /// The sixteen bytes of the book, as files have them.
    pub fn book(&self) -> [u8; 16] {
        let mut bytes = [0u8; 16];
        bytes[..8].copy_from_slice(&self.book_high.to_be_bytes());
        bytes[8..].copy_from_slice(&self.book_low.to_be_bytes());
        bytes
    }
}

impl Origin {
    /// No known book, no window and no log: the origin of each snapshot of a version before 4.
    pub fn unknown() -> Origin
        ensures { result ≡ unknown }
    {
        Origin {
            identity: Identity::unknown(),
            has_log: false,
        }
    }
}
