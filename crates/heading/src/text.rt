// The text rule: Text (13) goes from the first Data or `#` run after the opening run to the last, and a `#` run that closes the heading stays out. All
// that lies in the text goes, but for one Data pair. Events are put into a section.

ghost use Rattle.std.specs.Prelude.{◌≡◌, ◌+◌, ◌≤◌, ◌<◌, true, length, reverse, MatchOption};
ghost use Rattle.record.specs.EventsOf.{events_of};
ghost use Rattle.partners.specs.Section.{Ready, Puts};
ghost use Rattle.heading.specs.Headings.{shaped, starts_with, through_opening, to_last, without_closing, before_text, text_round, with_text};
ghost use Rattle.heading.specs.Steps.{Ends};

use crate::seek::{before_first, is_data_or_run, through_last};
use crate::shape::starts_with;
use partners::Section;
use record::limits::{DATA, ENTER, EXIT, HEADING_SEQUENCE, HEADING_TEXT, SPACE_OR_TAB};
use record::listed::Events;

// Where a text lies among a heading's inner events: how many stand before it, and how many up to its end.
#[derive(Clone, Copy, PartialEq, Eq)]
pub struct Text {
    pub before: usize,
    pub through: usize,
}

// How many of a heading's inner events stand up to the end of its opening run.
pub fn through_opening(inner: Events) -> usize
    requires { shaped (events_of inner) ≡ true }
    ensures { (result ≡ through_opening (events_of inner.entry)) × (result ≤ inner.entry.count) }
{
    if starts_with(inner, SPACE_OR_TAB) {
        4
    } else {
        2
    }
}

// Events up to the last Data or `#` run.
pub fn to_last<'a>(events: Events<'a>) -> Events<'a>
    ensures { events_of result ≡ to_last (events_of events.entry) }
{
    events.take(through_last(events, |e| is_data_or_run(e)))
}

// Whether the last event has a name.
pub fn ends_with(events: Events, name: u8) -> bool
    ensures { result ≡ starts_with name (reverse (events_of events.entry)) }
{
    match events.split_last() {
        Some((last, _)) => last.name == name,
        None => false,
    }
}

// Events without a `#` run that is the last of them.
pub fn without_closing<'a>(events: Events<'a>) -> Events<'a>
    ensures { events_of result ≡ without_closing (events_of events.entry) }
{
    if ends_with(events, HEADING_SEQUENCE) {
        return events.take(events.count.saturating_sub(2));
    }
    events
}

// Of the events from a text's first on those up to its last.
fn text_events<'a>(behind: Events<'a>) -> Events<'a>
    ensures { events_of result ≡ to_last (without_closing (to_last (events_of behind.entry))) }
{
    let marked = to_last(behind);
    let unclosed = without_closing(marked);
    // Most headings have no closing run: then the last event is known.
    if unclosed.count == marked.count {
        return marked;
    }
    to_last(unclosed)
}

// The text of a heading's inner events, if one is left. It is inlined, since it is asked twice of each heading, and most are short.
#[inline(always)]
pub fn text_of(inner: Events) -> Option<Text>
    requires { shaped (events_of inner) ≡ true }
    ensures { MatchOption result (Ends (events_of inner.entry) inner.entry.count (before_text (events_of inner.entry)) (before_text (events_of inner.entry))) (λ t. Ends (events_of inner.entry) inner.entry.count t.before t.through × (t.before < t.through)) }
{
    let opened = through_opening(inner);
    let before = opened + before_first(inner.skip(opened), |e| is_data_or_run(e));
    let text = text_events(inner.skip(before));
    if text.count == 0 {
        return None;
    }
    Some(Text {
        before,
        through: before + text.count,
    })
}

// How many events a heading's inner events become.
pub fn inner_size(inner: Events) -> usize
    requires { (inner.count ≤ 2048) × (shaped (events_of inner) ≡ true) }
    ensures { (result ≡ length (with_text (events_of inner.entry))) × (result ≤ inner.entry.count + 3) }
{
    match text_of(inner) {
        Some(Text { before, through }) => before + 4 + (inner.count - through),
        None => inner.count,
    }
}

// Puts a text's four events, from one place of the document to another.
pub fn put_round(section: &mut Section<'_>, from: usize, end: usize)
    requires { Ready section.old (text_round from end) }
    ensures { Puts section.old (text_round from end) section.new }
{
    section.put(ENTER, HEADING_TEXT, from);
    section.put(ENTER, DATA, from);
    section.put(EXIT, DATA, end);
    section.put(EXIT, HEADING_TEXT, end);
}

// Puts what a heading's inner events become.
pub fn put_inner(section: &mut Section<'_>, inner: Events)
    requires { (shaped (events_of inner) ≡ true) × Ready section.old (with_text (events_of inner)) }
    ensures { Puts section.old (with_text (events_of inner.entry)) section.new }
{
    let Some(Text { before, through }) = text_of(inner) else {
        section.copy(inner);
        return;
    };
    let first = inner.event(before).place;
    let last = inner.event(through - 1).place;
    section.copy(inner.take(before));
    put_round(section, first, last);
    section.copy(inner.skip(through));
}
