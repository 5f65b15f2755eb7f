// The forms of a record: where its sections begin, and how wide an event is; and how a record is handed over. What reads or writes a record goes over any
// form.

ghost use Rattle.std.specs.Prelude.{◌≡◌, ◌≤◌, get_or};
ghost use Rattle.record.specs.Form.{old as oldForm, second as secondForm, place_in, Known};
ghost use Rattle.record.specs.Handed.{form_of, options_of};

// The bytes before the document's count, and the bytes of an event.
#[derive(Clone, Copy)]
pub struct Form {
    pub front: usize,
    pub width: usize,
}

// Document 01's form.
pub fn old() -> Form
    ensures { result ≡ oldForm }
{
    Form { front: 0, width: 8 }
}

// Form 2: the option byte as a first section, and behind each event its partner's number.
pub fn second() -> Form
    ensures { result ≡ secondForm }
{
    Form {
        front: 5,
        width: 12,
    }
}

// Where event k stands, after a document of d bytes.
pub fn place_of(form: Form, d: usize, k: usize) -> usize
    requires { Known form × (d ≤ 16384) × (k ≤ 4096) }
    ensures { result ≡ place_in form d k }
{
    8 + form.front + d + form.width * k
}

// How a record is handed over: in the old form, with the option number beside it, or in form 2, which carries its options.
#[derive(Clone, Copy)]
pub enum Handed {
    Old(u32),
    Second,
}

// The form of a record that is handed over.
pub fn form_of(handed: Handed) -> Form
    ensures { result ≡ form_of handed }
{
    match handed {
        Handed::Old(_) => old(),
        Handed::Second => second(),
    }
}

// The option byte of a record of form 2; 0 where there is none.
fn option_byte(s: &[u8]) -> u32
    ensures { result ≡ get_or s.now 4 0 }
{
    s.get(4).map_or(0, |byte| u32::from(*byte))
}

// The options: those beside the record, or its own.
pub fn options_of(handed: Handed, s: &[u8]) -> u32
    ensures { result ≡ options_of handed s.now }
{
    match handed {
        Handed::Old(options) => options,
        Handed::Second => option_byte(s),
    }
}
