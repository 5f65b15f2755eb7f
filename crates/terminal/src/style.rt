// The styles that a terminal shows a text in, by the control sequences of ECMA-48. They are written only where the script `lark` asks for them.

use crate::host::Host;
use crate::say::say;

// The styles that a text is shown in, all at once.
#[derive(Clone, Copy, PartialEq, Eq)]
pub struct Styles {
    pub bold: bool,
    pub italic: bool,
    pub struck: bool,
}

pub const PLAIN: Styles = Styles {
    bold: false,
    italic: false,
    struck: false,
};

// Has what follows shown in these styles.
pub fn begin_styles(host: &mut Host, styles: Styles) {
    let sequence: &[u8] = match (styles.bold, styles.italic, styles.struck) {
        (false, false, false) => return,
        (true, false, false) => b"\x1b[1m",
        (false, true, false) => b"\x1b[3m",
        (true, true, false) => b"\x1b[1;3m",
        (false, false, true) => b"\x1b[9m",
        (true, false, true) => b"\x1b[1;9m",
        (false, true, true) => b"\x1b[3;9m",
        (true, true, true) => b"\x1b[1;3;9m",
    };
    say(host, sequence);
}

// Has what follows shown plain, where other styles were begun.
pub fn end_styles(host: &mut Host, styles: Styles) {
    if styles != PLAIN {
        say(host, b"\x1b[0m");
    }
}
