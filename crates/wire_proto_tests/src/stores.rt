//! Answers that an engine of one thread never gives: those of a store that refuses batches, saves, and has a log in
//! memory, whose syncs are counted and fail.
ghost use Rattle.std.specs.Prelude.{◌≡◌, ⊤};

use crate::asks::{Ask, frame, link_of};
use crate::hex::bytes_of;
use batch_store::{Batch, Kept, Setup};
use hyper_matrix::RowSum;
use mm_text::Script;
use plain_engine::{PlainEngine, PutFault, Status, ViewedSum};
use std::alloc::{AllocError, Global};
use std::io::Eprint;
use std::process::Abort;
use std::random::RandomSource;
use std::sync::Arc;
use test_batches::{setup_up_to, small_setup};
use test_support::{pieces, same_at};
use wire_proto::{
    Amount, Ended, Figure, FoldRefusal, Keeper, Label, Labels, PutRefusal, SaveRefusal, Settled,
    Told, serve,
};

// What a store answers each put, if it refuses them all; what it answers a save; and how often it syncs before a sync
// fails. A fold is answered as a save, and has its own refusals: its log has failed or its records differ where a save
// is off or fails.
type Answers = (Option<PutRefusal>, Result<u64, SaveRefusal>, u64);

// An engine, and how much of what it accepted was synced. A sync makes all durable that is accepted by then, and after
// one that failed none is tried. Where puts are refused, there is no memory to export.
#[derive(Drop)]
struct Store {
    engine: PlainEngine,
    answers: Answers,
    durable: Status,
    syncs: u64,
    has_failed: bool,
}

impl Keeper for Store {
    ghost gives = { λ s e t. ⊤ };

    ghost begins = { λ s batch answer t. ⊤ };

    ghost settles = { λ s place known t. ⊤ };

    ghost fact = { λ s. ⊤ };

    ghost setup_of = { λ s. s.engine.setup };

    ghost refused = { λ s t batch refusal h. h };

    ghost answered = { λ s m t batch kept known b h. b };

    ghost earlier = { λ s m t batch answer place known b h. (s, h, b) };

    ghost may_lack = { λ s t m e h. h };

    ghost may_lack_text = { λ s t told e h. h };

    fn setup(&self) -> Setup {
        self.engine.setup()
    }

    fn begin_put(&mut self, alloc: Global, batch: Arc<Batch>) -> Result<Kept, PutRefusal> {
        if let Some(refusal) = self.answers.0 {
            return Err(refusal);
        }
        Ok(self.engine.put(alloc, batch)?)
    }

    fn settle(&mut self, place: u64) -> Settled {
        if place < self.durable.batches {
            return Settled::Durable;
        }
        if self.syncs >= self.answers.2 {
            self.has_failed = true;
        }
        if self.has_failed {
            return Settled::LogFailed;
        }
        self.syncs = self.syncs.saturating_add(1);
        self.durable = self.engine.status();
        Settled::Durable
    }

    fn cell(&mut self, row: u64, col: u64) -> Option<u64> {
        self.engine.cell(row, col)
    }

    fn row(&mut self, row: u64) -> RowSum {
        self.engine.row(row)
    }

    fn status(&mut self) -> Status {
        self.engine.status()
    }

    fn export(&mut self, alloc: Global) -> Result<ViewedSum, AllocError> {
        if self.answers.0.is_some() {
            return Err(AllocError);
        }
        self.engine.viewed(alloc)
    }

    fn save(&mut self, _alloc: Global) -> Result<u64, SaveRefusal> {
        self.answers.1
    }

    fn stored(&mut self) -> Status {
        self.durable
    }

    fn stats(&mut self, alloc: Global) -> Result<Told, AllocError> {
        if self.answers.1.is_err() {
            return Err(AllocError);
        }
        Ok(Told {
            setup: self.engine.setup(),
            status: Status {
                batches: 3,
                total: 12,
            },
            folded: 2,
            figures: Vec::from_slice(alloc, FIGURES)?,
        })
    }

    fn fold(&mut self, _alloc: Global) -> Result<u64, FoldRefusal> {
        match self.answers.1 {
            Ok(folded) => Ok(folded),
            Err(SaveRefusal::Memory) => Err(FoldRefusal::Memory),
            Err(SaveRefusal::SaveOff) => Err(FoldRefusal::LogFailed),
            Err(SaveRefusal::SaveFailed) => Err(FoldRefusal::RecordsDiffer),
        }
    }
}

// A line of each kind of amounts and of labels, and three lines that are left out: two of pinned names, and one that
// holds a line of a pinned name.
static FIGURES: &[Figure] = &[
    Figure {
        name: "version",
        labels: Labels::None,
        amount: Amount::Word("0.1.0"),
    },
    Figure {
        name: "refused_total",
        labels: Labels::One(Label {
            key: "code",
            value: Amount::Count(30),
        }),
        amount: Amount::Count(7),
    },
    Figure {
        name: "shard_layer_entries",
        labels: Labels::Two(
            Label {
                key: "shard",
                value: Amount::Count(0),
            },
            Label {
                key: "layer",
                value: Amount::Count(2),
            },
        ),
        amount: Amount::Count(61_234),
    },
    Figure {
        name: "uptime_seconds",
        labels: Labels::None,
        amount: Amount::Millis(12_034),
    },
    Figure {
        name: "save_age_seconds",
        labels: Labels::None,
        amount: Amount::Millis(7),
    },
    Figure {
        name: "processor_seconds_total",
        labels: Labels::None,
        amount: Amount::Millis(u64::MAX),
    },
    Figure {
        name: "frames_total",
        labels: Labels::One(Label {
            key: "kind",
            value: Amount::Word("put"),
        }),
        amount: Amount::Count(u64::MAX),
    },
    Figure {
        name: "batches",
        labels: Labels::None,
        amount: Amount::Count(4),
    },
    Figure {
        name: "layer_cut_entries",
        labels: Labels::One(Label {
            key: "layer",
            value: Amount::Count(1),
        }),
        amount: Amount::Count(8),
    },
    Figure {
        name: "revision",
        labels: Labels::None,
        amount: Amount::Word("1\nbatches 4"),
    },
];

// How a session over a new store ended, whether just these bytes were written, and how many syncs there were.
fn served<R: RandomSource + Abort>(
    rt: &R,
    alloc: Global,
    setup: Setup,
    answers: Answers,
    link: Script,
    digits: &str,
) -> (Ended, bool, u64)
    requires { link.failures ≡ 0 }
{
    let mut store = Store {
        engine: PlainEngine::new(rt, alloc, setup).expect(rt, "memory"),
        answers,
        durable: Status {
            batches: 0,
            total: 0,
        },
        syncs: 0,
        has_failed: false,
    };
    let expected = bytes_of(rt, alloc, digits);
    let mut sent = link;
    let ended = serve(alloc, &mut sent, &mut store, 1_000);
    let is_it = sent.written() == expected.as_slice();
    let syncs = store.syncs;
    drop(store);
    drop(sent);
    drop(expected);
    (ended, is_it, syncs)
}

const PUT: Ask = Ask::Put(7, 1, FIVE);

const FIVE: &str = "3 3 1\n1 1 5\n";

const ON: Ended = Ended::Closed { rest: 0 };

const OFF: Result<u64, SaveRefusal> = Err(SaveRefusal::SaveOff);

// A store's answers, what is asked in one piece, what comes back, how the session ends, and how many syncs there are.
type Case = (Answers, &'static [Ask], &'static str, Ended, u64);

static REFUSING: &[Case] = &[
    (
        (None, Ok(300), 0),
        &[Ask::Fold, Ask::Save],
        "00000008 86 000000000000012c 00000008 86 000000000000012c",
        ON,
        0,
    ),
    (
        (None, Err(SaveRefusal::SaveFailed), 0),
        &[Ask::Fold, Ask::Save],
        "0000000a ff 0021 0000000000000000 0000000a ff 002a 0000000000000000",
        ON,
        0,
    ),
    (
        (None, OFF, 0),
        &[Ask::Fold, Ask::Save],
        "0000000a ff 0023 0000000000000000 0000000a ff 002b 0000000000000000",
        ON,
        0,
    ),
    (
        (None, Err(SaveRefusal::Memory), 0),
        &[Ask::Fold, Ask::Status],
        "0000000a ff 0001 0000000000000000",
        Ended::Memory,
        0,
    ),
    (
        (None, Err(SaveRefusal::Memory), 0),
        &[Ask::Save, Ask::Status],
        "0000000a ff 0001 0000000000000000",
        Ended::Memory,
        0,
    ),
    (
        (None, Err(SaveRefusal::Memory), 0),
        &[Ask::Stats, Ask::Status],
        "0000000a ff 0001 0000000000000000",
        Ended::Memory,
        0,
    ),
    (
        (Some(PutRefusal::Put(PutFault::Memory)), OFF, 0),
        &[PUT, Ask::Status],
        "0000000a ff 0001 0000000000000000",
        Ended::Memory,
        0,
    ),
    (
        (Some(PutRefusal::LogFailed), OFF, 0),
        &[PUT, Ask::Export, Ask::Status],
        "0000000a ff 0023 0000000000000000 0000000a ff 0001 0000000000000000",
        Ended::Memory,
        0,
    ),
    (
        (Some(PutRefusal::Put(PutFault::RecordsDiffer)), OFF, 0),
        &[PUT, Ask::Status],
        "0000000a ff 0021 0000000000000000
         00000010 84 0000000000000000 0000000000000000",
        ON,
        0,
    ),
    // After the refusal come the setup, `batches 3`, `folded 2` and `total 12`, and then `version 0.1.0`,
    // `refused_total{code="30"} 7`, `shard_layer_entries{shard="0",layer="2"} 61234`, `uptime_seconds 12.034`,
    // `save_age_seconds 0.007`, `processor_seconds_total 18446744073709551.615` and
    // `frames_total{kind="put"} 18446744073709551615`. No figure gives a second `batches` or `layer_cut_entries`.
    (
        (Some(PutRefusal::LogFull), Ok(0), 0),
        &[PUT, Ask::Stats],
        "0000000a ff 0022 0000000000000000
         00000172 8a
         726f777320330a
         636f6c7320330a
         6375747320320a
         6c617965725f6375745f656e74726965737b6c617965723d2231227d20320a
         6c617965725f6375745f656e74726965737b6c617965723d2232227d20340a
         73686172647320320a
         6c696d6974203130300a
         6d61785f626174636865732031300a
         6261746368657320330a
         666f6c64656420320a
         746f74616c2031320a
         76657273696f6e20302e312e300a
         726566757365645f746f74616c7b636f64653d223330227d20370a
         73686172645f6c617965725f656e74726965737b73686172643d2230222c6c617965723d2232227d2036313233340a
         757074696d655f7365636f6e64732031322e3033340a
         736176655f6167655f7365636f6e647320302e3030370a
         70726f636573736f725f7365636f6e64735f746f74616c2031383434363734343037333730393535312e3631350a
         6672616d65735f746f74616c7b6b696e643d22707574227d2031383434363734343037333730393535313631350a",
        ON,
        0,
    ),
];

static SETTLING: &[Case] = &[
    // A request that isn't a put has those before it settled first; a refusal comes in order, and a repeat waits.
    (
        (None, OFF, 10),
        &[
            Ask::Put(7, 1, FIVE),
            Ask::Put(7, 1, "3 3 1\n1 1 6\n"),
            Ask::Put(7, 1, FIVE),
            Ask::Stored,
            Ask::Put(7, 2, FIVE),
            Ask::Put(8, 1, "3 3 1\n9 9 1\n"),
            Ask::Status,
            Ask::Stored,
        ],
        "00000010 81 0000000000000000 0000000000000005
         0000000a ff 001e 0000000000000000
         00000010 81 0000000000000000 0000000000000005
         00000010 84 0000000000000001 0000000000000005
         00000010 81 0000000000000001 000000000000000a
         0000000a ff 0071 0000000000000003
         00000010 84 0000000000000002 000000000000000a
         00000010 84 0000000000000002 000000000000000a",
        ON,
        2,
    ),
    // The first sync fails: none of the puts is known to be durable, and the session goes on.
    (
        (None, OFF, 0),
        &[
            Ask::Put(7, 1, FIVE),
            Ask::Put(7, 2, FIVE),
            Ask::Put(7, 3, FIVE),
            Ask::Status,
            Ask::Stored,
            Ask::Put(7, 1, FIVE),
            Ask::Cell(0, 0),
        ],
        "0000000a ff 0023 0000000000000000
         0000000a ff 0023 0000000000000000
         0000000a ff 0023 0000000000000000
         00000010 84 0000000000000003 000000000000000f
         00000010 84 0000000000000000 0000000000000000
         0000000a ff 0023 0000000000000000
         00000009 82 01 000000000000000f",
        ON,
        0,
    ),
    // The second fails: what the first made durable is repeated, and nothing else is accepted.
    (
        (None, OFF, 1),
        &[
            Ask::Put(7, 1, FIVE),
            Ask::Stored,
            Ask::Put(8, 1, FIVE),
            Ask::Put(7, 1, FIVE),
            Ask::Put(9, 1, FIVE),
            Ask::Stored,
        ],
        "00000010 81 0000000000000000 0000000000000005
         00000010 84 0000000000000001 0000000000000005
         0000000a ff 0023 0000000000000000
         00000010 81 0000000000000000 0000000000000005
         0000000a ff 0023 0000000000000000
         00000010 84 0000000000000001 0000000000000005",
        ON,
        1,
    ),
    // The last reply of a session comes after them.
    (
        (None, OFF, 10),
        &[Ask::Put(7, 1, FIVE), Ask::Put(7, 2, FIVE), Ask::Stop],
        "00000010 81 0000000000000000 0000000000000005
         00000010 81 0000000000000001 000000000000000a
         00000000 87",
        Ended::Stopped,
        1,
    ),
];

// Compares what becomes of each of these cases.
fn check<R: RandomSource + Abort + Eprint>(rt: &R, alloc: Global, cases: &[Case]) {
    for case in cases {
        let link = link_of(rt, alloc, case.1, usize::MAX);
        let found = served(
            rt,
            alloc,
            small_setup().expect(rt, "a setup"),
            case.0,
            link,
            case.2,
        );
        assert!(rt; same_at(rt, &case.2, &found, &(case.3, true, case.4)));
    }
}

#[test]
fn stores_are_answered_for(rt: HostRuntime) {
    check(&rt, rt.alloc(), REFUSING);
}

#[test]
fn puts_in_one_piece_are_settled_together(rt: HostRuntime) {
    check(&rt, rt.alloc(), SETTLING);
}

// How many syncs a session has of so many puts of one batch each, in pieces of this size.
fn syncs_of<R: RandomSource + Abort>(
    rt: &R,
    alloc: Global,
    puts: u64,
    size: usize,
) -> (Ended, u64) {
    let mut sent = Vec::new(alloc);
    for number in 0..puts {
        let one = frame(rt, alloc, Ask::Put(7, number, FIVE));
        sent.extend_from_slice(one.as_slice()).expect(rt, "memory");
        drop(one);
    }
    let list = pieces(alloc, sent.as_slice(), size).expect(rt, "memory");
    drop(sent);
    let link = Script::new(alloc, list, None, None);
    let answers = (None, OFF, u64::MAX);
    let found = served(
        rt,
        alloc,
        setup_up_to(1000, 100).expect(rt, "a setup"),
        answers,
        link,
        "",
    );
    (found.0, found.2)
}

// Each put has 82 bytes. A read has what came before it settled first.
#[test]
fn at_most_64_puts_share_a_sync(rt: HostRuntime) {
    for (puts, size, syncs) in [
        (1u64, usize::MAX, 1u64),
        (2, usize::MAX, 1),
        (2, 82, 2),
        (64, usize::MAX, 1),
        (65, usize::MAX, 2),
    ] {
        let found = syncs_of(&rt, rt.alloc(), puts, size);
        assert!(rt; same_at(&rt, &(puts, size), &found, &(ON, syncs)));
    }
}
