// The bytes that the words of a line spell, one word after another. Bytes that do not fit are dropped.

ghost use Rattle.std.specs.Prelude.{◌≡◌, ◌+◌, ◌-◌, ◌≤◌, ◌<◌, length, true};

use crate::second::put;
use crate::{digit, find, number};
use record::bytes::put_u32;
use record::event::{Event, event_at};

// What is spelled so far: the first `len` bytes of a buffer, with events of this width.
#[derive(Drop)]
pub struct Spelled<'a> {
    pub out: &'a mut [u8],
    pub len: usize,
    pub width: usize,
    ghost inside: { len ≤ length out.now },
    ghost wide: { 8 ≤ width },
    ghost slim: { width ≤ 12 },
}

impl<'a> Spelled<'a> {
    // Nothing yet.
    pub fn new(out: &'a mut [u8], width: usize) -> Spelled<'a>
        requires { (8 ≤ width) × (width ≤ 12) }
        ensures { result.out.ghost_name ≡ out.entry.ghost_name }
    {
        Spelled { out, len: 0, width }
    }

    // How many bytes fit yet.
    fn room(&self) -> usize
        ensures { result ≡ length self.now.out.now - self.now.len }
    {
        self.out.len() - self.len
    }

    // n bytes of one value.
    fn fill(&mut self, byte: u8, n: usize)
        ensures { self.new.out.ghost_name ≡ self.old.out.ghost_name }
    {
        let to = self.len + n.min(self.room());
        self.out[self.len..to].fill(byte);
        self.len = to;
    }

    // The bytes of a text.
    pub fn copy(&mut self, text: &[u8])
        ensures { self.new.out.ghost_name ≡ self.old.out.ghost_name }
    {
        let n = text.len().min(self.room());
        self.out[self.len..self.len + n].copy_from_slice(&text[..n]);
        self.len += n;
    }

    // A count, if all its four bytes fit.
    fn count(&mut self, n: usize)
        ensures { self.new.out.ghost_name ≡ self.old.out.ghost_name }
    {
        if self.room() >= 4 {
            put_u32(self.out, self.len, n);
            self.len += 4;
        }
    }

    // The first section of form 2, if it fits.
    fn front(&mut self, options: usize)
        ensures { self.new.out.ghost_name ≡ self.old.out.ghost_name }
    {
        if self.room() >= 5 {
            self.count(1);
            self.fill((options % 256) as u8, 1);
        }
    }

    // The last sixteen bytes, n times more.
    fn repeat(&mut self, n: usize)
        requires { n < 1000000000010 }
        ensures { self.new.out.ghost_name ≡ self.old.out.ghost_name }
    {
        if self.len < 16 {
            return;
        }
        let to = self.len + (16 * n).min(self.room());
        for at in self.len..to {
            self.out[at] = self.out[at - 16];
        }
        self.len = to;
    }

    // An event, if it fits; whether it did.
    fn put(&mut self, e: Event) -> bool
        ensures same_buffer { self.new.out.ghost_name ≡ self.old.out.ghost_name }
        ensures fits { result ≡ true → self.old.len + 8 ≤ self.new.len }
    {
        if self.room() < self.width {
            return false;
        }
        put(self.out, self.len, self.width, e);
        self.len += self.width;
        true
    }

    // What an event's word says behind its sign. A partner number behind a slash goes to an event that has one.
    fn event(&mut self, kind: u8, word: &[u8])
        ensures { self.new.out.ghost_name ≡ self.old.out.ghost_name }
    {
        let at = find(word, 0, b'@');
        if at == word.len() {
            return;
        }
        let name = (number(word, 0) % 256) as u8;
        let place = number(word, at + 1);
        let fits = self.put(Event { kind, name, place });
        let slash = find(word, 0, b'/');
        if fits && self.width == 12 && slash < word.len() {
            put_u32(self.out, self.len - 4, number(word, slash + 1));
        }
    }

    // The last two events as often again as the word says behind its star, each time further on by the number before that.
    fn march(&mut self, word: &[u8])
        ensures { self.new.out.ghost_name ≡ self.old.out.ghost_name }
    {
        let star = find(word, 0, b'*');
        if star == word.len() || self.len < 24 {
            return;
        }
        let step = number(word, 0);
        for _ in 0..2 * number(word, star + 1) {
            let mut e = event_at(self.out, self.len - 2 * self.width);
            e.place += step;
            if !self.put(e) {
                break;
            }
        }
    }

    // What the word `!25=07` says behind its sign, done to what is spelled.
    fn replace(&mut self, word: &[u8])
        ensures { self.new.out.ghost_name ≡ self.old.out.ghost_name }
    {
        let place = number(word, 0);
        if let [b'=', high, low, ..] = &word[find(word, 0, b'=')..]
            && place < self.len
        {
            self.out[place] = hex(*high, *low);
        }
    }

    // A word: its sign, and what stands behind that.
    pub fn spell(&mut self, sign: u8, word: &[u8])
        ensures { self.new.out.ghost_name ≡ self.old.out.ghost_name }
    {
        match (sign, word) {
            (b'x', [high, low, _, _, ..]) => self.fill(hex(*high, *low), number(word, 3)),
            (b'x', [high, low, ..]) => self.fill(hex(*high, *low), 1),
            (b'#', _) => self.count(number(word, 0)),
            (b'%', _) => self.front(number(word, 0)),
            (b'!', _) => self.replace(word),
            (b'=', _) => self.repeat(number(word, 0)),
            (b'^', _) => self.march(word),
            (b'+', _) => self.event(0, word),
            (b'-', _) => self.event(1, word),
            _ => {}
        }
    }
}

// The byte that two hex digits make.
fn hex(high: u8, low: u8) -> u8 {
    (digit(high) * 16 + digit(low)) as u8
}
