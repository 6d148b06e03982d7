//! Why requests were refused last, as far as a server knows.

use crate::failure::{FailedSave, LastFailure, SavedFile};
use log_folder::{FailedCall, FileCall, LogNews};
use server_counters::{Counters, word_of_error};
use std::alloc::AllocError;
use std::sync::Wait;
use wire_proto::{Amount, Figure, Label, Labels};

/// The codes of the refusals whose reason a server may know.
const OVER_LIMIT: u16 = 31;

const BOOK_FULL: u16 = 32;

const LOG_FULL: u16 = 34;

const LOG_FAILED: u16 = 35;

const SAVE_FAILED: u16 = 42;

// The line of a code, where the reason is known.
fn push_reason(
    out: &mut Vec<Figure>,
    code: u16,
    why: Option<&'static str>,
) -> Result<(), AllocError> {
    let Some(why) = why else {
        return Ok(());
    };
    let code = Label {
        key: "code",
        value: Amount::Count(code as u64),
    };
    let why = Label {
        key: "why",
        value: Amount::Word(why),
    };
    out.push(Figure {
        name: "last_failure",
        labels: Labels::Two(code, why),
        amount: Amount::Count(1),
    })?;
    Ok(())
}

// Why a call on the log has failed.
fn why_failed(failed: FailedCall) -> Option<&'static str> {
    match (failed.call, failed.error) {
        (FileCall::OtherBook, _) => Some("other-book"),
        (FileCall::Look, _) => Some("moved"),
        (_, Some(error)) => Some(word_of_error(error)),
        (_, None) => None,
    }
}

// Why the log has no room.
fn why_full(news: &LogNews) -> Option<&'static str> {
    let failed = news.failure()?;
    if failed.call != FileCall::MakeRoom {
        return None;
    }
    why_failed(failed)
}

// Why the save that failed last did.
fn why_unsaved<R: Wait>(rt: &R, failure: &LastFailure) -> Option<&'static str> {
    let FailedSave {
        file,
        fault: _,
        error,
    } = failure.last(rt)?;
    match (file, failure.news().failure()) {
        (SavedFile::Log, Some(failed)) => why_failed(failed),
        _ => Some(word_of_error(error?)),
    }
}

/// A line for each code whose last refusal has a reason that is known: of a full book, of a full log, of a log that has
/// failed, for as long as it is so, and of a failed save, until one succeeds.
pub(crate) fn push_failures<R: Wait>(
    rt: &R,
    out: &mut Vec<Figure>,
    counters: &Counters,
    failure: Option<&LastFailure>,
    is_log_failed: bool,
) -> Result<(), AllocError> {
    if counters.has_refused(OVER_LIMIT) {
        push_reason(out, OVER_LIMIT, Some("limit"))?;
    }
    if counters.has_refused(BOOK_FULL) {
        push_reason(out, BOOK_FULL, Some("max-batches"))?;
    }
    let Some(failure) = failure else {
        return Ok(());
    };
    let news = failure.news();
    if counters.has_refused(LOG_FULL) {
        push_reason(out, LOG_FULL, why_full(news))?;
    }
    if is_log_failed && counters.has_refused(LOG_FAILED) {
        let broken = news.broken_by();
        push_reason(
            out,
            LOG_FAILED,
            broken.and_then(|broken| why_failed(broken)),
        )?;
    }
    if counters.has_failed_to_save() {
        push_reason(out, SAVE_FAILED, why_unsaved(rt, failure))?;
    }
    Ok(())
}
