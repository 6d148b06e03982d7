//! What is left of the bounds of a book and its log.
ghost use Rattle.std.specs.Prelude.{◌≡◌, ◌-◌, ◌≤◌};

use crate::stats::number;
use batch_store::Setup;
use locked_engine::Status;
use log_folder::LogNews;
use log_page::PAGE;
use server_counters::most_file_bytes;
use std::alloc::AllocError;
use wire_proto::Figure;

/// How many bytes a log has at most by its format.
const MOST_LOG_BYTES: u64 = 1 << 40;

/// How many bytes a log may have: as many as its format and the system's limit of the size of files allow.
pub fn most_log_bytes() -> u64
    ensures { result ≤ 1099511627776 }
{
    most_file_bytes().min(MOST_LOG_BYTES)
}

/// How many bytes the pages of a log have that were written.
pub fn log_bytes(news: &LogNews) -> u64 {
    news.pages().saturating_mul(PAGE as u64)
}

// How many are left of so many; none where more are used.
fn left_of(most: u64, used: u64) -> u64
    ensures { result ≡ most - used }
{
    most.saturating_sub(used)
}

/// How many batches a book still takes, and how much its total may still rise.
pub(crate) fn push_left(
    out: &mut Vec<Figure>,
    setup: &Setup,
    status: Status,
) -> Result<(), AllocError> {
    let batches = left_of(setup.max_batches(), status.batches);
    let total = left_of(setup.limit(), status.total);
    out.push(number("batches_left", batches))?;
    out.push(number("total_left", total))?;
    Ok(())
}

/// How many bytes a log may still grow.
pub(crate) fn push_log_left(out: &mut Vec<Figure>, news: &LogNews) -> Result<(), AllocError> {
    let bytes = left_of(most_log_bytes(), log_bytes(news));
    out.push(number("log_bytes_left", bytes))?;
    Ok(())
}
