//! What a snapshot is asked, as the words of a command line say it.

use crate::numbers::read_number;
use crate::report::Fault;
use cell_queries::{CellRange, Span, TopBy};
use clap::ArgMatches;
use snap_query::{Side, TopQuery};

/// Whether rows are asked for, or columns.
pub fn side_of(given: &ArgMatches) -> Side {
    if given.get_flag("cols") {
        Side::Cols
    } else {
        Side::Rows
    }
}

// What rows are compared by.
fn by_of(given: &ArgMatches) -> TopBy {
    match given.get_str("by") {
        Some("entries") => TopBy::Entries,
        _ => TopBy::Total,
    }
}

/// The number that an argument is.
pub fn number_of(given: &ArgMatches, name: &str) -> Result<u64, Fault> {
    match read_number(given.get_str(name).unwrap_or("").as_bytes()) {
        Some(number) => Ok(number),
        None => Err(Fault::BadNumber),
    }
}

/// What `top` is asked.
pub fn top_query_of(given: &ArgMatches) -> Result<TopQuery, Fault> {
    let most = number_of(given, "most")?;
    Ok(TopQuery {
        side: side_of(given),
        by: by_of(given),
        most: most as usize,
    })
}

/// The numbers that a word A-B names, both in.
pub fn read_span(word: &str) -> Option<Span> {
    let (first, last) = word.split_once('-')?;
    let first = read_number(first.as_bytes())?;
    let last = read_number(last.as_bytes())?;
    if first > last {
        return None;
    }
    Some(Span { first, last })
}

// The numbers that an option names, and all where it is left out.
fn span_of(given: &ArgMatches, name: &str) -> Result<Span, Fault> {
    let Some(word) = given.get_str(name) else {
        return Ok(Span {
            first: 0,
            last: u64::MAX,
        });
    };
    match read_span(word) {
        Some(span) => Ok(span),
        None => Err(Fault::BadNumber),
    }
}

/// What `list` is asked.
pub fn range_of(given: &ArgMatches) -> Result<CellRange, Fault> {
    Ok(CellRange {
        rows: span_of(given, "rows")?,
        cols: span_of(given, "cols")?,
        start: (0, 0),
    })
}
