//! The numbers that a server tells of itself beside its setup and its status.

use crate::failure::LastFailure;
use crate::failures::push_failures;
use crate::left::{push_left, push_log_left};
use batch_store::ShardView;
use layer_compaction::Layer;
use locked_engine::{Engine, Named, Status};
use log_desk::{DeskFigures, Log, LogDesk};
use log_folder::LogNews;
use server_counters::{BOUNDS, CODES, Counters, KINDS, LastSave, Machine, PutTimes, VERSION};
use snap_file::Identity;
use std::alloc::{AllocError, Global};
use std::sync::Wait;
use std::sync::ledger::Ledger;
use std::time::Duration;
use wire_proto::{Amount, Figure, Label, Labels};

/// What is looked at for the numbers: the counters and the log, where there are such, why the save that failed last did,
/// what was accepted, and whose the files are.
#[derive(Drop)]
pub(crate) struct Sight<'a, N: Named, L: Log> {
    pub(crate) counters: Option<&'a Counters>,
    pub(crate) desk: Option<&'a LogDesk<N, L>>,
    pub(crate) news: Option<&'a LogNews>,
    pub(crate) failure: Option<&'a LastFailure>,
    pub(crate) status: Status,
    pub(crate) identity: Identity,
}

/// A number without labels.
pub(crate) fn number(name: &'static str, n: u64) -> Figure {
    Figure {
        name,
        labels: Labels::None,
        amount: Amount::Count(n),
    }
}

// A time in seconds.
fn seconds(name: &'static str, millis: u64) -> Figure {
    Figure {
        name,
        labels: Labels::None,
        amount: Amount::Millis(millis),
    }
}

// A number of something that a label names.
fn labelled(name: &'static str, key: &'static str, value: Amount, n: u64) -> Figure {
    Figure {
        name,
        labels: Labels::One(Label { key, value }),
        amount: Amount::Count(n),
    }
}

// A number of a layer of a shard.
fn of_layer(name: &'static str, shard: u64, layer: u64, n: u64) -> Figure {
    let shard = Label {
        key: "shard",
        value: Amount::Count(shard),
    };
    let layer = Label {
        key: "layer",
        value: Amount::Count(layer),
    };
    Figure {
        name,
        labels: Labels::Two(shard, layer),
        amount: Amount::Count(n),
    }
}

// How many whole milliseconds a time has.
fn millis(time: Duration) -> u64 {
    time.as_secs()
        .saturating_mul(1000)
        .saturating_add(time.subsec_millis() as u64)
}

// How many entries a layer has at most, and of how many matrices it is. One without entries is of none: a base without
// cells is a matrix too, which nobody wants to hear of.
fn entries_and_runs(layer: &Layer) -> (u64, u64) {
    let entries = layer.most_entries();
    let runs = if entries == 0 {
        0
    } else {
        layer.runs().len() as u64
    };
    (entries, runs)
}

// Each layer of a shard. What was handed down, which comes after the last one, counts with that.
fn push_layers(out: &mut Vec<Figure>, shard: u64, view: &ShardView) -> Result<(), AllocError> {
    let layers = view.layers();
    let last = (layers.len() as u64).saturating_sub(1);
    let mut number = 0u64;
    let mut carried = (0u64, 0u64);
    for layer in layers {
        let (entries, runs) = entries_and_runs(layer);
        let figures = (
            carried.0.saturating_add(entries),
            carried.1.saturating_add(runs),
        );
        number = number.saturating_add(1);
        if number == last {
            // What comes next was handed down.
            carried = figures;
            continue;
        }
        let layer = number.min(last);
        out.push(of_layer("shard_layer_entries", shard, layer, figures.0))?;
        out.push(of_layer("shard_layer_runs", shard, layer, figures.1))?;
    }
    Ok(())
}

// Each layer of each shard, as the shards are shown.
fn push_shards<N: Named, H: Ledger, R: Wait>(
    rt: &R,
    alloc: Global,
    out: &mut Vec<Figure>,
    engine: &Engine<N, H>,
) -> Result<(), AllocError> {
    let shards = engine.setup().shards();
    for s in 0..shards {
        let view = engine.view_of(rt, alloc, s)?;
        push_layers(out, s, &view)?;
    }
    Ok(())
}

// The requests that have come, by kind.
fn push_requests(out: &mut Vec<Figure>, counters: &Counters) -> Result<(), AllocError> {
    let mut place = 0usize;
    for one in KINDS {
        let count = counters.requests(place);
        let kind = Amount::Word(one.name);
        out.push(labelled("frames_total", "kind", kind, count))?;
        place = place.saturating_add(1);
    }
    Ok(())
}

// The requests that were refused, by code.
fn push_refusals(out: &mut Vec<Figure>, counters: &Counters) -> Result<(), AllocError> {
    let mut place = 0usize;
    for code in CODES {
        let count = counters.refusals(place);
        let code = Amount::Count(*code as u64);
        out.push(labelled("refused_total", "code", code, count))?;
        place = place.saturating_add(1);
    }
    Ok(())
}

// The connections, and what went over them.
fn push_sessions(out: &mut Vec<Figure>, counters: &Counters) -> Result<(), AllocError> {
    let sessions = counters.sessions.counts();
    out.push(number("workers", counters.workers()))?;
    out.push(number("sessions_total", sessions.served))?;
    out.push(number("sessions_open", sessions.open))?;
    out.push(number("sessions_waiting", sessions.waiting))?;
    out.push(number("received_bytes_total", counters.received()))?;
    out.push(number("sent_bytes_total", counters.sent()))?;
    Ok(())
}

// The batches that this server has accepted, and those that were put again.
fn push_batches(
    out: &mut Vec<Figure>,
    counters: &Counters,
    batches: u64,
) -> Result<(), AllocError> {
    out.push(number("accepted_total", counters.accepted(batches)))?;
    out.push(number("repeats_total", counters.repeats()))?;
    out.push(number("cells_total", counters.cells()))?;
    Ok(())
}

// How many puts took at most so long.
fn put_bucket(seconds: &'static str, n: u64) -> Figure {
    labelled("put_seconds_bucket", "le", Amount::Word(seconds), n)
}

// How long the puts took that were accepted.
fn push_put_times(out: &mut Vec<Figure>, times: &PutTimes) -> Result<(), AllocError> {
    let mut sum = 0u64;
    let mut index = 0usize;
    for bound in BOUNDS {
        sum = sum.saturating_add(times.group(index));
        out.push(put_bucket(bound.seconds, sum))?;
        index = index.saturating_add(1);
    }
    sum = sum.saturating_add(times.group(index));
    out.push(put_bucket("+Inf", sum))?;
    out.push(seconds("put_seconds_sum", times.millis()))?;
    out.push(number("put_seconds_count", sum))?;
    Ok(())
}

// The saves, and the last one.
fn push_saves<R: Machine>(
    rt: &R,
    out: &mut Vec<Figure>,
    counters: &Counters,
) -> Result<(), AllocError> {
    out.push(number("saves_total", counters.saves()))?;
    out.push(number("failed_saves_total", counters.failed_saves()))?;
    let Some(LastSave { batches, age }) = counters.last_save(rt) else {
        return Ok(());
    };
    out.push(number("saved_batches", batches))?;
    if let Some(age) = age {
        out.push(seconds("save_age_seconds", millis(age)))?;
    }
    Ok(())
}

// What the process uses, and for how long.
fn push_process<R: Machine>(rt: &R, out: &mut Vec<Figure>) -> Result<(), AllocError> {
    if let Some(bytes) = rt.resident_bytes() {
        out.push(number("resident_bytes", bytes))?;
    }
    if let Some(used) = rt.processor_millis() {
        out.push(seconds("processor_seconds_total", used))?;
    }
    Ok(())
}

// All that is counted.
fn push_counters<R: Machine>(
    rt: &R,
    out: &mut Vec<Figure>,
    counters: &Counters,
    batches: u64,
) -> Result<(), AllocError> {
    if let Some(age) = counters.age(rt) {
        out.push(seconds("uptime_seconds", millis(age)))?;
    }
    push_process(rt, out)?;
    push_batches(out, counters, batches)?;
    push_refusals(out, counters)?;
    push_requests(out, counters)?;
    push_sessions(out, counters)?;
    push_put_times(out, &counters.put_times)?;
    push_saves(rt, out, counters)
}

// What the log has.
fn push_log(
    out: &mut Vec<Figure>,
    desk: DeskFigures,
    is_failed: bool,
    news: Option<&LogNews>,
) -> Result<(), AllocError> {
    out.push(number("log_durable_batches", desk.durable))?;
    out.push(number("log_failed", if is_failed { 1 } else { 0 }))?;
    out.push(number("log_room_pages", desk.room))?;
    out.push(number("log_group_batches", desk.group))?;
    let Some(news) = news else {
        return Ok(());
    };
    out.push(number("log_pages", news.pages()))?;
    out.push(number("log_syncs_total", news.syncs()))?;
    push_log_left(out, news)
}

/// The numbers, with the layers of all shards last. Of each shard it takes what is shown, as a cell does.
///
/// # Errors
///
/// A growth was refused.
pub(crate) fn figures_of<N: Named, H: Ledger, L: Log, R: Wait + Machine>(
    rt: &R,
    alloc: Global,
    engine: &Engine<N, H>,
    sight: &Sight<'_, N, L>,
) -> Result<Vec<Figure>, AllocError> {
    let mut out = Vec::new(alloc);
    out.push(Figure {
        name: "version",
        labels: Labels::None,
        amount: Amount::Word(VERSION),
    })?;
    if sight.identity.has_book() {
        let book = Amount::Hex(sight.identity.book());
        out.push(labelled("book", "id", book, 1))?;
    }
    push_left(&mut out, &engine.setup(), sight.status)?;
    if let Some(counters) = sight.counters {
        push_counters(rt, &mut out, counters, sight.status.batches)?;
        let is_log_failed = sight.desk.is_some_and(|desk| desk.is_failed(rt));
        push_failures(rt, &mut out, counters, sight.failure, is_log_failed)?;
    }
    if let Some(desk) = sight.desk {
        push_log(&mut out, desk.figures(rt), desk.is_failed(rt), sight.news)?;
    }
    push_shards(rt, alloc, &mut out, engine)?;
    Ok(out)
}
