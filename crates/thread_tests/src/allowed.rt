//! Whether a run gave one of the answers of its row.
use crate::runs::Outcome;
use std::alloc::{AllocError, Global};
use test_rows::Row;

// Whether a text is one of these.
fn is_among(texts: &[String], wanted: &str) -> bool {
    for text in texts.iter() {
        if text.as_str() == wanted {
            return true;
        }
    }
    false
}

// The exit code that comes with a line on the error stream.
fn code_with(fault: &str) -> i64 {
    if fault.starts_with("xmt: trap ") {
        4
    } else if fault.starts_with("xmt: budget spent ") {
        5
    } else {
        6
    }
}

// Whether a run may end in this fault.
fn is_fault(alloc: Global, row: &Row, outcome: &Outcome) -> Result<bool, AllocError> {
    let faults = row.texts(alloc, "faults")?;
    let is_code = outcome.code == code_with(outcome.err.as_str());
    let is_before = outcome.out.as_str() == row.text_or_empty("before");
    Ok(is_code && is_before && is_among(faults.as_slice(), outcome.err.as_str()))
}

/// Whether a run may end so: with one of the row's answers, or with one of its faults.
pub(crate) fn is_allowed(alloc: Global, row: &Row, outcome: &Outcome) -> Result<bool, AllocError> {
    if outcome.code != 0 {
        return is_fault(alloc, row, outcome);
    }
    let answers = row.texts(alloc, "answers")?;
    Ok(outcome.err.is_empty() && is_among(answers.as_slice(), outcome.out.as_str()))
}

/// How many answers and faults a row has.
pub(crate) fn answer_count(alloc: Global, row: &Row) -> Result<usize, AllocError> {
    let mut count = 0_usize;
    for key in ["answers", "faults"] {
        let texts = row.texts(alloc, key)?;
        count = count.saturating_add(texts.len());
    }
    Ok(count)
}
