// Document 01's shape rule, "name 1 is entered, then at once left, at a later place; all bytes between are one marker", asked of the record's
// own bytes.

ghost use Rattle.std.specs.Prelude.{◌≡◌, ◌+◌, ◌≤◌, ◌<◌, length, nat_eq};
ghost use Rattle.std.specs.List.{list_all};
ghost use Rattle.record.specs.Options.{option_on};
ghost use Rattle.record.specs.Event.{document_in, event_at, events_by};
ghost use Rattle.record.specs.Bytes.{u32_at};
ghost use Rattle.runs.specs.Runs.{is_marker, allowed as allowedBy, run_between, shaped};

use record::bytes::u32_at;
use record::form::Form;
use record::limits::{ATTENTION_SEQUENCE, EXIT, OPTION_ATTENTION, OPTION_STRIKETHROUGH};

// Whether the option of this value is among those that are summed.
#[tactic(auto, unfolding(record::specs::Options::option_on))]
pub fn option_on(options: u32, value: u32) -> bool
    requires { 0 < value }
    ensures { result ≡ option_on options value }
{
    options / value % 2 == 1
}

// Whether a byte is one of the three markers.
#[tactic(auto, unfolding(runs::specs::Runs::is_marker))]
fn is_marker(byte: u8) -> bool
    ensures { result ≡ is_marker byte }
{
    matches!(byte, b'*' | b'_' | b'~')
}

// Whether a marker's option is on.
#[tactic(auto, unfolding(runs::specs::Runs::allowed, record::specs::Choice::choose))]
fn allowed(options: u32, marker: u8) -> bool
    ensures { result ≡ allowedBy options marker }
{
    let option = if marker == b'~' {
        OPTION_STRIKETHROUGH
    } else {
        OPTION_ATTENTION
    };
    option_on(options, option)
}

// Whether bytes are all this one.
fn all_are(bytes: &[u8], marker: u8) -> bool
    ensures { result ≡ list_all (λ b. nat_eq b marker) bytes.now }
{
    bytes.iter().all(|&byte| byte == marker)
}

// Whether a document's bytes from one place up to another are a run.
#[tactic(auto, unfolding(runs::specs::Runs::run_between, record::specs::Choice::and))]
fn run_between(document: &[u8], options: u32, from: usize, to: usize) -> bool
    requires { to ≤ length document.now }
    ensures { result ≡ run_between document.now options from to }
{
    if from >= to {
        return false;
    }
    let marker = document[from];
    is_marker(marker)
        && all_are(&document[from..to], marker)
        && document.get(to) != Some(&marker)
        && allowed(options, marker)
}

// Whether the run that the event at a place of the record enters has its shape; another event follows it.
#[tactic(auto, unfolding(runs::specs::Runs::shaped, runs::specs::Runs::left_at_once, record::specs::Event::document_in, record::specs::Event::events_by, record::specs::Choice::and))]
pub fn shaped_at(s: &[u8], form: Form, d: usize, options: u32, at: usize) -> bool
    requires { (at + form.width + 8 ≤ length s.now) × (u32_at s.now (at + form.width + 4) ≤ d) × (4 + form.front + d ≤ length s.now) }
    ensures { result ≡ shaped (document_in form s.now d) options (event_at s.now at) (events_by form.width 1 s.now (at + form.width)) }
{
    let next = at + form.width;
    let start = 4 + form.front;
    s[next] == EXIT
        && s[next + 1] == ATTENTION_SEQUENCE
        && run_between(
            &s[start..start + d],
            options,
            u32_at(s, at + 4),
            u32_at(s, next + 4),
        )
}
