//! Which word of a command line isn't a number, or is one out of range.

use crate::culprit::Culprit;
use crate::numbers::{ListFault, read_list, read_number};
use crate::query::read_span;
use crate::roll_word::window_of;
use batch_store::SetupFault;
use clap::ArgMatches;
use std::alloc::Global;

/// A word that has to be a number, by its name among what was read, and as a user writes it.
#[derive(Clone, Copy)]
struct Numeral {
    id: &'static str,
    shown: &'static str,
}

/// The numbers of a server, in the order in which they are read.
static OF_SERVER: &[Numeral] = &[
    Numeral {
        id: "workers",
        shown: "--workers",
    },
    Numeral {
        id: "compactors",
        shown: "--compactors",
    },
    Numeral {
        id: "sessions",
        shown: "--sessions",
    },
    Numeral {
        id: "fold-above",
        shown: "--fold-above",
    },
    Numeral {
        id: "save-log-above",
        shown: "--save-log-above",
    },
    Numeral {
        id: "save-every",
        shown: "--save-every",
    },
    Numeral {
        id: "idle",
        shown: "--idle",
    },
    Numeral {
        id: "drain",
        shown: "--drain",
    },
    Numeral {
        id: "lock-wait",
        shown: "--lock-wait",
    },
];

/// Those of a setup.
static OF_SETUP: &[Numeral] = &[
    Numeral {
        id: "rows",
        shown: "--rows",
    },
    Numeral {
        id: "cols",
        shown: "--cols",
    },
    Numeral {
        id: "shards",
        shown: "--shards",
    },
    Numeral {
        id: "limit",
        shown: "--limit",
    },
    Numeral {
        id: "max-batches",
        shown: "--max-batches",
    },
];

const CUTS: Numeral = Numeral {
    id: "cuts",
    shown: "--cuts",
};

/// The most rows or columns that a matrix has.
const MAX_DIMENSION: u64 = 1 << 60;

static OF_TOP: &[Numeral] = &[Numeral {
    id: "most",
    shown: "-n",
}];

static OF_HAS: &[Numeral] = &[
    Numeral {
        id: "client",
        shown: "CLIENT",
    },
    Numeral {
        id: "number",
        shown: "NUMBER",
    },
];

static OF_ROLL: &[Numeral] = &[Numeral {
    id: "client",
    shown: "CLIENT",
}];

/// The cells that a list is of.
static OF_LIST: &[Numeral] = &[
    Numeral {
        id: "rows",
        shown: "--rows",
    },
    Numeral {
        id: "cols",
        shown: "--cols",
    },
];

// The form of a word.
#[derive(Clone, Copy, PartialEq, Eq)]
enum Form {
    /// A number.
    Number,
    /// A-B.
    Span,
}

// Whether a word has this form.
fn has_form(word: &str, form: Form) -> bool {
    match form {
        Form::Number => read_number(word.as_bytes()).is_some(),
        Form::Span => read_span(word).is_some(),
    }
}

// The first of these words that is given and doesn't have this form.
fn first_bad<'a>(given: &ArgMatches<'a>, numerals: &[Numeral], form: Form) -> Option<Culprit<'a>> {
    for one in numerals {
        let Some(word) = given.get_str(one.id) else {
            continue;
        };
        if !has_form(word, form) {
            return Some(shown(*one, word));
        }
    }
    None
}

// This word of a command line.
fn shown<'a>(numeral: Numeral, word: &'a str) -> Culprit<'a> {
    Culprit::Word {
        name: numeral.shown,
        word,
    }
}

// The list of cuts, where it isn't one.
fn bad_list<'a>(alloc: Global, given: &ArgMatches<'a>) -> Option<Culprit<'a>> {
    let word = given.get_str("cuts")?;
    match read_list(alloc, word) {
        Err(ListFault::BadNumber) => Some(shown(CUTS, word)),
        _ => None,
    }
}

// The first window's word that begins with a number of too many bits.
fn bad_window<'a>(given: &ArgMatches<'a>) -> Option<Culprit<'a>> {
    for word in given.get_strs("file")? {
        if window_of(*word).is_err() {
            return Some(Culprit::Word {
                name: "FILE",
                word: *word,
            });
        }
    }
    None
}

/// The word that isn't a number where one has to be, in what was read behind this word of the program.
pub fn bad_number<'a>(alloc: Global, word: &str, given: &ArgMatches<'a>) -> Culprit<'a> {
    let found = match word {
        "serve" => first_bad(given, OF_SERVER, Form::Number)
            .or(first_bad(given, OF_SETUP, Form::Number))
            .or(bad_list(alloc, given)),
        "fold" => first_bad(given, OF_SETUP, Form::Number).or(bad_list(alloc, given)),
        "sum" => bad_list(alloc, given),
        "top" => first_bad(given, OF_TOP, Form::Number),
        "list" => first_bad(given, OF_LIST, Form::Span),
        "has" => first_bad(given, OF_HAS, Form::Number),
        "roll" => first_bad(given, OF_ROLL, Form::Number).or(bad_window(given)),
        _ => None,
    };
    found.unwrap_or(Culprit::Nothing)
}

/// This word of a command line, if it is given.
pub fn word_given<'a>(
    given: &ArgMatches<'a>,
    id: &'static str,
    shown: &'static str,
) -> Culprit<'a> {
    match given.get_str(id) {
        Some(word) => Culprit::Word { name: shown, word },
        None => Culprit::Nothing,
    }
}

// Whether a number of rows or columns is given and is none that a matrix may have.
fn is_bad_dimension(given: &ArgMatches<'_>, id: &str) -> bool {
    let Some(word) = given.get_str(id) else {
        return false;
    };
    match read_number(word.as_bytes()) {
        Some(number) => number < 1 || number > MAX_DIMENSION,
        None => false,
    }
}

/// The number that is out of range, where a setup is refused so.
pub fn bad_setup<'a>(given: &ArgMatches<'a>, fault: SetupFault) -> Culprit<'a> {
    match fault {
        SetupFault::BadDimension if is_bad_dimension(given, "rows") => {
            word_given(given, "rows", "--rows")
        }
        SetupFault::BadDimension => word_given(given, "cols", "--cols"),
        SetupFault::BadCuts => word_given(given, "cuts", "--cuts"),
        SetupFault::BadShards => word_given(given, "shards", "--shards"),
        SetupFault::BadLimit => word_given(given, "limit", "--limit"),
        SetupFault::BadBatches => word_given(given, "max-batches", "--max-batches"),
    }
}
