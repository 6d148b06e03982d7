//! The history of an engine: the batches that it has accepted since it was opened, and their entries, in order. It exists
//! in proofs alone; what is there at run time is one word, which nobody reads.
//!
//! Each entry takes the place that the one before it names, and the right to take the next place is there once, with
//! `History`. So nobody else can add to it, and whoever has it knows that it is all.
ghost use Rattle.std.specs.Prelude.{◌≡◌, ◌<◌, ◌∷◌, ◌++◌, [], length};
ghost use mathlib.Core.List.{IsPrefix};
ghost use Rattle.std.specs.Arc.{arc_value};
ghost use Rattle.logbook.specs.Pages.{nib, may_make, may_write};
ghost use Rattle.batch_store.specs.declared.verdict.Verdict.TheVariants.{Fresh};
ghost use Rattle.batch_store.specs.Accepted.{entries_in};
ghost use Rattle.locked_engine.specs.Histories.{head_of, place_from, added_in, given_in, none_prop};
ghost use Rattle.locked_engine.specs.Views.{course};
ghost use Rattle.locked_engine.specs.Versions.{IsVersion, version_status, entry_verdict};

use crate::known::Known;
use crate::names::Named;
use crate::version::Version;
use batch_store::{Batch, Entry};
use logbook::{Gain, Offer, Pen, Plain, Play, Rule, Seen, Start, Word};
use plain_engine::Status;
use std::marker::{Model, PhantomData};
use std::sync::Arc;

/// A line of the history: a batch with its entry, and the place that the next line takes. No value of it is made.
pub struct Line {
    pub entry: Entry,
    pub batch: Batch,
    pub next: u64,
}

/// The rule of the history: each line has taken the place that the one before it names.
pub struct HistoryRule;

impl Rule<Line, u64> for HistoryRule {
    ghost use Rattle.std.specs.Prelude.{[]};
    ghost use base.Fml.{ftrue};
    ghost use Rattle.locked_engine.specs.Histories.{IsKept};

    ghost holds = { λ cells log. IsKept cells log };

    ghost first = { [] };

    ghost hinted = { λ n log. Unit {0} };

    ghost shows = { λ log. [] };

    ghost keeps = { λ names log. ftrue };

    ghost moves = { λ ask before after answer. Unit {0} };
}

/// Callers of the history trade nothing.
pub struct NoGain;

impl Gain<Line, u64> for NoGain {
    ghost use base.Fml.{ftrue};

    ghost after = { λ names about answer. ftrue };
}

/// The step that writes the first line, which is no entry, and makes the place that the first entry takes.
pub struct BeginHistory;

impl Play<Line, u64> for BeginHistory {
    ghost use Rattle.locked_engine.specs.Histories.{Begins};

    ghost then = { Begins };
}

/// A step that makes a place.
pub struct MakePlace;

impl Play<Line, u64> for MakePlace {
    ghost use Rattle.locked_engine.specs.Histories.{Places};

    ghost then = { Places };
}

/// A step that adds a batch.
pub struct AddEntry;

impl Play<Line, u64> for AddEntry {
    ghost use Rattle.locked_engine.specs.Histories.{Adds};

    ghost then = { Adds };
}

/// A step that looks at the whole.
pub struct LookAtAll;

impl Play<Line, u64> for LookAtAll {
    ghost use Rattle.locked_engine.specs.Histories.{Looks};

    ghost then = { Looks };
}

// What is added: a batch with its entry, and the place that the next one takes.
#[derive(Drop)]
struct Addition {
    entry: Entry,
    batch: Arc<Batch>,
    place: Pen,
}

impl Plain<Addition, Line, u64> for AddEntry {
    ghost use Rattle.std.specs.Prelude.{None};
    ghost use Rattle.std.specs.Arc.{arc_value};
    ghost use Rattle.locked_engine.specs.Histories.{line};

    ghost ask = { λ a. line a.entry (arc_value a.batch) a.place.nib.key };

    ghost state = { λ a. None };
}

// The other steps ask for no entry.
impl Plain<Entry, Line, u64> for BeginHistory {
    ghost use Rattle.std.specs.Prelude.{None};
    ghost use Rattle.locked_engine.specs.Histories.{line, no_batch};

    ghost ask = { λ e. line e no_batch 0 };

    ghost state = { λ e. None };
}

const NO_ENTRY: Entry = Entry {
    client: 0,
    number: 0,
    cells: 0,
    total: 0,
};

type Offered = Offer<Line, u64, HistoryRule, NoGain>;

// The right to take a place, of the right to make it.
fn taken(place: Pen) -> Pen
    requires { place.nib ≡ nib may_make place.nib.key 0 }
    ensures book { result.book ≡ place.book }
    ensures nib { result.nib ≡ nib may_write place.nib.key 0 }
{
    let mut place = place;
    let _word: Word<Line, u64, HistoryRule> = Word::tracked(0, &mut place);
    place
}

/// A history without entries, which has no name yet. It takes no memory.
#[derive(Drop)]
pub struct NewHistory {
    head: Word<Line, u64, HistoryRule>,
    pub(crate) seen: Seen<Line, u64, HistoryRule>,
    place: Pen,
    pub ghost some: { 0 < length seen.log },
    pub ghost empty: { added_in seen.log ≡ [] },
    pub ghost none: { given_in seen.log ≡ [] } by { none_prop (given_in seen.log) },
    pub ghost head_is: { head ≡ head_of seen.book },
    pub ghost place_book: { place.book ≡ seen.book },
    pub ghost place_is: { place.nib ≡ nib may_write (place_from 0 seen.log) 0 },
}

impl NewHistory {
    /// A new history. None where another has made the first step in it, to which nothing leads.
    pub fn new() -> Option<NewHistory> {
        let (mut seen, mut first, _second) = Seen::open(Start::alone(), 0, 0);
        let head = Word::tracked(0, &mut first);
        let mut offer: Offered = seen.plain::<NoGain, Entry, BeginHistory>(&NO_ENTRY);
        let mut place = seen.no_pen();
        let found = head.compare_exchange::<BeginHistory, NoGain>(
            0, 1, &mut seen, &mut offer, &mut place,
        );
        if found != 0 {
            return None;
        }
        Some(NewHistory {
            head,
            seen,
            place: taken(place),
        })
    }
}

/// The whole history of the engine that N names, behind what the engine was opened with. There is one of it, and what
/// it doesn't have can't be seen by anybody.
///
/// Contracts see the entries, first those of what was opened, and the batches, first those that weren't folded then. No
/// client and number stands twice, and both limits hold.
#[derive(Drop)]
pub struct History<N: Named> {
    status: Status,
    // How many of them were accepted after the engine was opened.
    added: u64,
    head: Word<Line, u64, HistoryRule>,
    seen: Seen<Line, u64, HistoryRule>,
    place: Pen,
    of: PhantomData<N>,
}

impl<N: Named> Model for History<N> {
    ghost use Rattle.std.specs.Prelude.{◌≡◌, ◌<◌, ◌++◌, length};
    ghost use Rattle.logbook.specs.Pages.{nib, may_write};
    ghost use Rattle.batch_store.specs.Accepted.{entries_in};
    ghost use Rattle.locked_engine.specs.Histories.{head_of, place_from, added_in, given_in};
    ghost use Rattle.locked_engine.specs.Versions.{IsVersion, version_status};
    ghost use Rattle.locked_engine.specs.Views.{Course, course, coded_course};

    ghost Value = { Course };

    ghost coded = { coded_course };

    ghost view = { λ a. course (entries_in N.opened ++ added_in a.seen.log) (N.opened.list ++ given_in a.seen.log) };

    ghost invariant = { λ a. (a.status ≡ version_status (entries_in N.opened ++ added_in a.seen.log))
        × (a.added ≡ length (added_in a.seen.log)) × IsVersion N.setup (entries_in N.opened ++ added_in a.seen.log)
        × (0 < length a.seen.log) × (a.head ≡ head_of N.history) × (a.seen.book ≡ N.history)
        × (a.place.book ≡ N.history) × (a.place.nib ≡ nib may_write (place_from 0 a.seen.log) 0) };
}

impl<N: Named> History<N> {
    /// The history that N names, of an engine that is just opened, of this status.
    pub fn named(opened: NewHistory, status: Status) -> History<N>
        requires history { opened.seen.book ≡ N.history }
        requires status { status ≡ version_status (entries_in N.opened) }
        requires legal { IsVersion N.setup (entries_in N.opened) }
        ensures { result ≡ course (entries_in N.opened) N.opened.list }
    {
        let NewHistory { head, seen, place } = opened;
        History {
            status,
            added: 0,
            head,
            seen,
            place,
            of: PhantomData,
        }
    }

    /// Its status.
    pub fn status(&self) -> Status
        ensures status { result ≡ version_status self.now.entries }
        ensures legal { IsVersion N.setup self.now.entries }
        ensures opened { IsPrefix (entries_in N.opened) self.now.entries }
    {
        self.status
    }

    /// The version that shows all of it.
    pub fn version(&self) -> Version<N>
        ensures { result ≡ self.now.entries }
    {
        Version::make(self.status, self.added, self.seen.again())
    }

    /// What is known of its batches: all of them.
    pub fn known(&self) -> Known<N>
        ensures { result ≡ self.now.batches }
    {
        Known::make(self.seen.again())
    }

    /// Adds a batch with its entry, and gives the batch back.
    pub fn add(&mut self, entry: Entry, batch: Arc<Batch>) -> Arc<Batch>
        requires fresh { entry_verdict N.setup self.old.entries entry ≡ Fresh }
        ensures entries { self.new.entries ≡ self.old.entries ++ entry ∷ [] }
        ensures batches { self.new.batches ≡ self.old.batches ++ arc_value batch ∷ [] }
        ensures batch { arc_value result ≡ arc_value batch }
    {
        let place = self.make_place();
        let addition = Addition {
            entry,
            batch,
            place,
        };
        let mut offer: Offered = self.seen.plain::<NoGain, Addition, AddEntry>(&addition);
        self.head
            .compare_exchange::<AddEntry, NoGain>(
                0,
                1,
                &mut self.seen,
                &mut offer,
                &mut self.place,
            );
        let Addition {
            entry: _,
            batch,
            place,
        } = addition;
        self.place = place;
        self.added += 1;
        self.status = Status {
            batches: self.status.batches + 1,
            total: self.status.total + entry.total,
        };
        batch
    }

    // The right to take a new place.
    fn make_place(&self) -> Pen
        ensures book { result.book ≡ N.history }
        ensures nib { result.nib ≡ nib may_write result.nib.key 0 }
    {
        let mut seen = self.seen.again();
        let mut offer: Offered = seen.plain::<NoGain, Entry, BeginHistory>(&NO_ENTRY);
        let mut place = seen.no_pen();
        self.head
            .compare_exchange::<MakePlace, NoGain>(0, 1, &mut seen, &mut offer, &mut place);
        taken(place)
    }

    /// Compares a version with the whole: it begins it.
    pub fn covers(&mut self, version: &Version<N>)
        ensures same { self.new ≡ self.old }
        ensures begins { IsPrefix version.now self.new.entries }
    {
        let other = version.seen();
        let mut both = self.seen.again();
        both.learn(other);
        let mut offer: Offered = both.plain::<NoGain, Entry, BeginHistory>(&NO_ENTRY);
        self.head
            .compare_exchange::<LookAtAll, NoGain>(0, 1, &mut both, &mut offer, &mut self.place);
    }
    /// Compares what is known with the whole: these batches begin its batches.
    pub fn contains(&mut self, known: &Known<N>)
        ensures same { self.new ≡ self.old }
        ensures begins { IsPrefix known.now self.new.batches }
    {
        let other = known.seen();
        let mut both = self.seen.again();
        both.learn(other);
        let mut offer: Offered = both.plain::<NoGain, Entry, BeginHistory>(&NO_ENTRY);
        self.head
            .compare_exchange::<LookAtAll, NoGain>(0, 1, &mut both, &mut offer, &mut self.place);
    }
}
