// The arguments behind a command: options, and at most one operand, which is a text or the name of a file. Behind the text of `record` stand
// events; they begin with a dash too, so no word there is an option.
//
// A text may begin with a dash, as the line of a list item does. So where the operand is a text, only the options that the command has are
// options; where it is a file, any other word that looks like one is wrong. Where there are two texts, one that looks like an option was meant
// as one.

ghost use Rattle.std.specs.Prelude.{◌≡◌, MatchOption};

use terminal::host::{Host, argument, argument_count, argument_length};
use terminal::number::{Misspelt, spelled};
use terminal::say::{Status, blame, wrong};
use terminal::words::is_between;

// What a command takes: a text, a text that is a line, a text and events, a file, a file whose events can be had as text.
#[derive(Clone, Copy, PartialEq, Eq)]
pub enum Takes {
    Text,
    Line,
    TextAndEvents,
    File,
    FileOfEvents,
}

// Whether the operand is a file.
fn is_file(takes: Takes) -> bool {
    matches!(takes, Takes::File | Takes::FileOfEvents)
}

// What the number behind an option is: the sum of the options of -o, or that of --form, of --column or of -c.
#[derive(Clone, Copy, PartialEq, Eq)]
pub enum Awaited {
    Options,
    Form,
    Column,
    Size,
}

// What is wrong with the arguments. Where it is one of them, its number is given.
#[derive(Clone, Copy, PartialEq, Eq)]
pub enum Fault {
    NotNumber(usize),
    NoOption(usize),
    OneTooMany(usize),
    TooLarge(usize),
    TooLong(usize),
    NoForm(usize),
    // The last option's number is missing.
    NumberMissing(Awaited),
    // -b stands alone: it says something of the item whose size -c gives.
    SizeMissing,
    // -o stands beside a record that is read and has its options in it. One that is made gets them.
    OtherOptions,
}

// The form of a record, the old one or form 2.
#[derive(Clone, Copy, PartialEq, Eq)]
pub enum RecordForm {
    Old,
    Second,
}

// The operand, by its number among the arguments; `dashed` says that it looks like an option.
#[derive(Clone, Copy)]
pub struct Operand {
    pub argument: usize,
    pub dashed: bool,
}

// What is asked for, by what the command takes. `options` is what -o gives. Of a line, `column` is where it starts, and `size` that of the item which
// it may continue, and whose flag is `blank`. `events` is the number of the first argument that is an event. `awaits` says which option's number the
// next word is, and `ended` that -- was there.
#[derive(Clone, Copy)]
pub struct Asked {
    pub takes: Takes,
    pub options: Option<u32>,
    pub form: RecordForm,
    pub as_text: bool,
    pub column: usize,
    pub interrupting: bool,
    pub size: Option<usize>,
    pub blank: bool,
    pub operand: Option<Operand>,
    pub events: Option<usize>,
    pub awaits: Option<Awaited>,
    pub ended: bool,
}

// An option of a command. `End` is --, behind which there are no more.
#[derive(Clone, Copy)]
enum Flag {
    Number(Awaited),
    AsText,
    Interrupting,
    Blank,
    End,
}

// The option that a word is, if a command that takes this has it. All go by way of a record, and have -o and --form.
fn flag_in(word: &[u8], takes: Takes) -> Option<Flag> {
    match word {
        b"-o" => Some(Flag::Number(Awaited::Options)),
        b"--form" => Some(Flag::Number(Awaited::Form)),
        b"--" => Some(Flag::End),
        b"-t" if takes == Takes::FileOfEvents => Some(Flag::AsText),
        b"-i" if takes == Takes::Line => Some(Flag::Interrupting),
        b"-b" if takes == Takes::Line => Some(Flag::Blank),
        b"-c" if takes == Takes::Line => Some(Flag::Number(Awaited::Size)),
        b"--column" if takes == Takes::Line => Some(Flag::Number(Awaited::Column)),
        _ => None,
    }
}

// Whether a word that begins with these two bytes looks like an option: a dash with more right behind it. A list item has a space there, and a
// dash alone nothing, which is a zero byte.
fn is_dashed(first: u8, second: u8) -> bool {
    first == b'-' && second > b' '
}

// The form of a record by its number.
fn form_by(number: u32) -> Option<RecordForm> {
    match number {
        1 => Some(RecordForm::Old),
        2 => Some(RecordForm::Second),
        _ => None,
    }
}

// A size or a column by its number, which has six digits at most.
fn columns(number: u32) -> Option<usize> {
    (number <= 999_999).then_some(number as usize)
}

// Whether argument i is rather a text than an event, whose first word begins with its sign. Where there is no word it is neither.
fn is_text(host: &Host, i: usize) -> bool {
    let mut words = [0u8; 32];
    argument_length(host, i, &mut words);
    match words.iter().find(|byte| !is_between(**byte)) {
        Some(first) => !matches!(*first, 0 | b'+' | b'-'),
        None => false,
    }
}

// The value of argument i, which is to be a number. The largest stands for every larger one: it is over all limits.
fn number_at(host: &Host, i: usize) -> Result<u32, Fault> {
    let mut word = [0u8; 32];
    let Some(n) = argument(host, i, &mut word) else {
        return Err(Fault::TooLong(i));
    };
    match spelled(&word[..n]) {
        Ok(number) => Ok(number),
        Err(Misspelt::TooLarge) => Ok(u32::MAX),
        Err(Misspelt::Other) => Err(Fault::NotNumber(i)),
    }
}

impl Asked {
    // What is asked for where a command that takes this has no arguments.
    fn new(takes: Takes) -> Asked {
        Asked {
            takes,
            options: None,
            form: RecordForm::Old,
            as_text: false,
            column: 0,
            interrupting: false,
            size: None,
            blank: false,
            operand: None,
            events: None,
            awaits: None,
            ended: false,
        }
    }

    // The options that are on: without -o all but the single tilde.
    pub fn options(&self) -> u32
        ensures { MatchOption self.now.options (result ≡ 59) (λ n. result ≡ n) }
    {
        self.options.unwrap_or(59)
    }

    // Argument i as the number behind an option. Options that are too large are refused as all over 63 are.
    fn take_number(&mut self, host: &Host, awaited: Awaited, i: usize) -> Result<(), Fault> {
        self.awaits = None;
        let number = number_at(host, i)?;
        match awaited {
            Awaited::Options => self.options = Some(number),
            Awaited::Form => self.form = form_by(number).ok_or(Fault::NoForm(i))?,
            Awaited::Column => self.column = columns(number).ok_or(Fault::TooLarge(i))?,
            Awaited::Size => self.size = Some(columns(number).ok_or(Fault::TooLarge(i))?),
        }
        Ok(())
    }

    // Argument i as the operand; `dashed` says that it looks like an option. Of two operands the first that does is blamed as one, or else this one as
    // one too many.
    fn take_operand(&mut self, i: usize, dashed: bool) -> Result<(), Fault> {
        match self.operand {
            None => {
                self.operand = Some(Operand {
                    argument: i,
                    dashed,
                });
                Ok(())
            }
            Some(first) if first.dashed => Err(Fault::NoOption(first.argument)),
            Some(_) if dashed => Err(Fault::NoOption(i)),
            Some(_) => Err(Fault::OneTooMany(i)),
        }
    }

    // An option.
    fn take_flag(&mut self, flag: Flag) {
        match flag {
            Flag::Number(awaited) => self.awaits = Some(awaited),
            Flag::AsText => self.as_text = true,
            Flag::Interrupting => self.interrupting = true,
            Flag::Blank => self.blank = true,
            Flag::End => self.ended = true,
        }
    }

    // Argument i where no number is awaited and -- was not there. A file's name does not look like an option.
    fn take_word(&mut self, host: &Host, i: usize) -> Result<(), Fault> {
        let mut word = [0u8; 16];
        let n = argument_length(host, i, &mut word);
        if let Some(flag) = flag_in(&word[..n], self.takes) {
            self.take_flag(flag);
            return Ok(());
        }
        let dashed = is_dashed(word[0], word[1]);
        if dashed && is_file(self.takes) {
            return Err(Fault::NoOption(i));
        }
        self.take_operand(i, dashed)
    }

    // Argument i as an event behind this text. If the first is rather a text, then the one before, where that looks like an option, was meant as one.
    fn take_event(&mut self, host: &Host, text: Operand, i: usize) -> Result<(), Fault> {
        if self.events.is_some() {
            return Ok(());
        }
        if text.dashed && is_text(host, i) {
            return Err(Fault::NoOption(text.argument));
        }
        self.events = Some(i);
        Ok(())
    }

    // Argument i.
    fn take(&mut self, host: &Host, i: usize) -> Result<(), Fault> {
        if let Some(awaited) = self.awaits {
            return self.take_number(host, awaited, i);
        }
        if let Some(text) = self.operand
            && self.takes == Takes::TextAndEvents
        {
            return self.take_event(host, text, i);
        }
        if self.ended {
            return self.take_operand(i, false);
        }
        self.take_word(host, i)
    }

    // What is wrong where no argument alone is.
    fn fault(&self) -> Option<Fault> {
        if let Some(awaited) = self.awaits {
            return Some(Fault::NumberMissing(awaited));
        }
        if self.blank && self.size.is_none() {
            return Some(Fault::SizeMissing);
        }
        if self.form == RecordForm::Second && is_file(self.takes) && self.options.is_some() {
            return Some(Fault::OtherOptions);
        }
        None
    }
}

// What the arguments from a number on ask of a command that takes this, or what is wrong first.
pub fn arguments(host: &Host, from: usize, takes: Takes) -> Result<Asked, Fault> {
    let mut asked = Asked::new(takes);
    for i in from..argument_count(host) {
        asked.take(host, i)?;
    }
    match asked.fault() {
        Some(fault) => Err(fault),
        None => Ok(asked),
    }
}

// Says what is wrong with the arguments.
pub fn say_fault(host: &mut Host, fault: Fault) -> Status
    ensures { result ≡ Status.Wrong }
{
    match fault {
        Fault::NotNumber(i) => blame(host, b"not a number", i),
        Fault::NoOption(i) => blame(host, b"no such option", i),
        Fault::OneTooMany(i) => blame(host, b"one argument too many", i),
        Fault::TooLarge(i) => blame(host, b"too large", i),
        Fault::TooLong(i) => blame(host, b"too long", i),
        Fault::NoForm(i) => blame(host, b"no such form", i),
        Fault::NumberMissing(Awaited::Options) => wrong(host, b"-o wants a number"),
        Fault::NumberMissing(Awaited::Form) => wrong(host, b"--form wants a number"),
        Fault::NumberMissing(Awaited::Column) => wrong(host, b"--column wants a number"),
        Fault::NumberMissing(Awaited::Size) => wrong(host, b"-c wants a number"),
        Fault::SizeMissing => wrong(host, b"-b wants -c beside it"),
        Fault::OtherOptions => wrong(
            host,
            b"-o does not go with --form 2 here: the record has its options in it",
        ),
    }
}
