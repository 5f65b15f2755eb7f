// The record of a text and of a section's events, which were given beside it or were made of it, in the form in which it is handed over.
//
// A section is written side by side, eight bytes to an event. The record is first made and judged with its events like that, since only sound events have
// partners; a good one is then made once more, with its events put as the form has them.

ghost use Rattle.std.specs.Prelude.{◌≡◌, true, ◌+◌, ◌*◌, ◌≤◌, length};
ghost use Rattle.record.specs.Event.{events_by};
ghost use Rattle.record.specs.Form.{Known};
ghost use Rattle.record.specs.Sound.{sound};

use crate::input::{RECORD_ROOM, TEXT_ROOM};
use partners::Pen;
use record::bytes::put_u32;
use record::check::{Counts, Refusal, check};
use record::form::{Form, Handed, form_of, place_of};
use record::limits::MAX_OPTIONS;
use terminal::events::Section;

// The bytes of an event as it is written.
const WRITTEN: usize = 8;

// Writes what stands before the document's count, which has so many bytes: nothing, or count 1 and the option byte.
fn put_front(front: usize, options: u32, rec: &mut [u8])
    requires { (front ≤ length rec.old) × (options ≤ 63) }
{
    if front < 5 {
        return;
    }
    put_u32(rec, 0, 1);
    rec[4] = options as u8;
}

// Writes a record whose events stand as they are written; its length. RECORD_ROOM bytes have room for any that is over a limit by as much as it
// takes to be refused; one that has no room there is cut off behind its front, and so refused for a length too.
fn put_parts(text: &[u8], section: Section, form: Form, options: u32, rec: &mut [u8]) -> usize
    requires { Known form × (65536 ≤ length rec.old) × (options ≤ 63) }
    ensures { (form.front ≤ result) × (result ≤ length rec.new) }
{
    let front = form.front;
    let d = text.len();
    let size = section.place(section.events);
    put_front(front, options, rec);
    if d > TEXT_ROOM {
        return front;
    }
    let behind = 4 + front + d;
    if size > rec.len() - behind {
        return front;
    }
    put_u32(rec, front, d);
    rec[4 + front..behind].copy_from_slice(text);
    rec[behind..behind + size].copy_from_slice(&section.bytes[..size]);
    behind + size
}

// Writes the record whose parts, with its events as they are written, are found good; its length.
fn put_good(parts: &[u8], form: Form, d: usize, events: usize, rec: &mut [u8]) -> usize
    requires { Known form × (d ≤ 16384) × (events ≤ 2048) × (8 + form.front + d + 8 * events ≤ length parts.now) × (sound 64 d (events_by 8 events parts.now (8 + form.front + d)) ≡ true) }
    ensures { result ≤ length rec.new }
{
    let end = place_of(form, d, events);
    if end > rec.len() {
        return 0;
    }
    let behind = 4 + form.front + d;
    let first = behind + 4;
    rec[..behind].copy_from_slice(&parts[..behind]);
    put_u32(rec, behind, events);
    let mut pen = Pen::begin(form, events);
    pen.copy(&mut rec[behind..], parts, first, WRITTEN, events);
    end
}

// Judges a record's parts, with its events as they are written, and writes the record.
fn judge<'a>(parts: &[u8], form: Form, rec: &'a mut [u8]) -> Result<&'a [u8], Refusal>
    requires { Known form × (form.front ≤ length parts.now) }
{
    let Counts { document, events } = check(parts, form.front, WRITTEN)?;
    let n = put_good(parts, form, document, events, rec);
    Ok(&rec[..n])
}

// Writes the record of a text and of a section's events, as they are written, where it is good, into RECORD_ROOM bytes. A refusal is by the place where an event
// stands as it is written.
pub fn put_record<'a>(
    text: &[u8],
    section: Section,
    handed: Handed,
    options: u32,
    rec: &'a mut [u8],
) -> Result<&'a [u8], Refusal> {
    if options > MAX_OPTIONS {
        return Err(Refusal {
            number: 2,
            place: 0,
        });
    }
    if rec.len() < RECORD_ROOM {
        return Ok(&[]);
    }
    let form = form_of(handed);
    let mut parts = [0u8; RECORD_ROOM];
    let n = put_parts(text, section, form, options, &mut parts);
    judge(&parts[..n], form, rec)
}
