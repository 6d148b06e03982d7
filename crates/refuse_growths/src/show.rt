//! Tells what engines hold and answer. A line that can't be written is missed by who compares them.

use batch_store::{BookList, Kept, Shard};
use hyper_matrix::Hyper;
use plain_engine::{PlainEngine, PutFault};

/// Tells these words on a line of their own.
pub fn say(rt: &impl Print, words: &str) {
    let _ = println!(rt; "{words}");
}

/// Tells words on a line of their own, each with the number behind it.
pub fn tell(rt: &impl Print, parts: &[(&str, u64)]) {
    for (at, (words, number)) in parts.iter().enumerate() {
        let blank = if at == 0 { "" } else { " " };
        let _ = print!(rt; "{blank}{words} {number}");
    }
    let _ = println!(rt;);
}

/// How many batches an engine has accepted, their total, and the same of each shard.
pub fn show_engine(rt: &impl Print, engine: &PlainEngine) {
    let status = engine.status();
    tell(rt, &[("batches", status.batches), ("total", status.total)]);
    for s in 0..2u64 {
        if let Some(shard) = engine.shard(s) {
            show_shard(rt, shard);
        }
    }
}

/// The number of a shard, how many batches it has taken in, and the total of its parts.
pub fn show_shard(rt: &impl Print, shard: &Shard) {
    let (number, batches, total) = (shard.number(), shard.record_len(), shard.total());
    tell(
        rt,
        &[("shard", number), ("batches", batches), ("total", total)],
    );
}

/// The answer to a put.
pub fn show_put(rt: &impl Print, answer: &Result<Kept, PutFault>) {
    match answer {
        Ok(kept) => tell(rt, &[("put kept", kept.index), ("total", kept.total_after)]),
        Err(PutFault::Memory) => say(rt, "put refused"),
        Err(_) => say(rt, "put fault"),
    }
}

/// How many batches a list has folded, how many behind them, and the total of its base.
pub fn show_book_list(rt: &impl Print, list: &BookList) {
    let (folded, batches) = (list.folded.len() as u64, list.batches.len() as u64);
    let total = list.base.total();
    tell(
        rt,
        &[
            ("listed folded", folded),
            ("batches", batches),
            ("base total", total),
        ],
    );
}

/// Each cell of a matrix.
pub fn show_cells(rt: &impl Print, matrix: &Hyper) {
    for cell in matrix.iter() {
        tell(
            rt,
            &[
                ("row", cell.row),
                ("column", cell.col),
                ("count", cell.count),
            ],
        );
    }
}
