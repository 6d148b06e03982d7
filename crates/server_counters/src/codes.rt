//! The kinds of requests and the codes of refusals that are told, and the version of the program.

/// The version of the program.
pub const VERSION: &str = "0.1.0";

/// A kind of requests, and the word that it is told by.
pub struct KindName {
    pub kind: u8,
    pub name: &'static str,
}

/// The kinds of requests.
pub static KINDS: &[KindName] = &[
    KindName {
        kind: 1,
        name: "put",
    },
    KindName {
        kind: 2,
        name: "cell",
    },
    KindName {
        kind: 3,
        name: "row",
    },
    KindName {
        kind: 4,
        name: "status",
    },
    KindName {
        kind: 5,
        name: "export",
    },
    KindName {
        kind: 6,
        name: "save",
    },
    KindName {
        kind: 7,
        name: "stop",
    },
    KindName {
        kind: 8,
        name: "put_cells",
    },
    KindName {
        kind: 9,
        name: "stored",
    },
    KindName {
        kind: 10,
        name: "range",
    },
    KindName {
        kind: 11,
        name: "top",
    },
    KindName {
        kind: 12,
        name: "stats",
    },
    KindName {
        kind: 13,
        name: "fold",
    },
    KindName {
        kind: 18,
        name: "groups",
    },
];

/// The codes of refusals, rising.
pub static CODES: &[u16] = &[
    1, 20, 21, 22, 23, 30, 31, 32, 33, 34, 35, 40, 41, 42, 43, 44, 50, 51, 52, 103, 104, 105, 106,
    107, 108, 109, 110, 111, 112, 113, 114, 115, 116,
];
