// Why a length does not fit: the cause of refusal 3, of a record.

use crate::front::explain_front_length;
use crate::refuse::because;
use record::bytes::u32_at;
use record::limits::{MAX_DOCUMENT, MAX_EVENTS};
use terminal::host::Host;

// What is counted.
#[derive(Clone, Copy)]
enum Counted {
    Document,
    Events,
}

// What is wrong with a count: it is cut off, it is over its limit, or what it counts runs past the record's end.
#[derive(Clone, Copy)]
enum Misfit {
    CutOff,
    Over,
    RunsPast,
}

// The most that there may be.
fn limit_of(counted: Counted) -> usize {
    match counted {
        Counted::Document => MAX_DOCUMENT,
        Counted::Events => MAX_EVENTS,
    }
}

// What is wrong with the count at a place, which is refused.
fn misfit_at(rec: &[u8], at: usize, limit: usize) -> Misfit {
    if at > rec.len() || rec.len() - at < 4 {
        Misfit::CutOff
    } else if u32_at(rec, at) > limit {
        Misfit::Over
    } else {
        Misfit::RunsPast
    }
}

// The words for that.
fn words_for(counted: Counted, misfit: Misfit) -> &'static [u8] {
    match (counted, misfit) {
        (Counted::Document, Misfit::CutOff) => b"the document's count is cut off",
        (Counted::Document, Misfit::Over) => b"the document's count is over 16,384",
        (Counted::Document, Misfit::RunsPast) => b"the document's count runs past the record's end",
        (Counted::Events, Misfit::CutOff) => b"the events' count is cut off",
        (Counted::Events, Misfit::Over) => b"the events' count is over 2,048",
        (Counted::Events, Misfit::RunsPast) => b"the events' count runs past the record's end",
    }
}

// The count at a place is refused.
fn explain_count(host: &mut Host, rec: &[u8], at: usize, counted: Counted) {
    because(
        host,
        words_for(counted, misfit_at(rec, at, limit_of(counted))),
    );
}

// Where the events' count stands, behind the document; None where the document's own count is not there.
fn events_at(rec: &[u8], front: usize) -> Option<usize> {
    if rec.len() < 4 || rec.len() - 4 < front {
        None
    } else {
        Some(4 + front + u32_at(rec, front))
    }
}

// The cause, by the place: the document's count stands behind so many bytes in front, the events' count behind the document, and any other place is
// behind both sections, or is that of the section in front.
pub fn explain_length(host: &mut Host, rec: &[u8], front: usize, place: usize) {
    if place < front {
        explain_front_length(host, rec);
    } else if place == front {
        explain_count(host, rec, place, Counted::Document);
    } else if let Some(at) = events_at(rec, front) {
        if place == at {
            explain_count(host, rec, place, Counted::Events);
        } else {
            because(host, b"bytes follow the last event");
        }
    }
}
