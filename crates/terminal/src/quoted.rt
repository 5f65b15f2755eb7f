// A user's bytes where a terminal may show them: on one line whatever they are, and with nothing in them that it would take for a command.
//
// Text is said as it stands: ASCII but its control bytes, and the sequences of UTF-8 that RFC 3629 calls well-formed but the C1 controls, U+0080
// to U+009F, which some terminals obey as they do ESC. Quotes, backslashes and all other bytes are escaped.

use crate::host::{Host, Stream};
use crate::say::{print, say, write};
use crate::style::{Styles, begin_styles, end_styles};

// Whether a character is not said as it stands: a control, a quote or a backslash.
fn is_odd(c: char) -> bool {
    matches!(c, '\0'..='\x1f' | '"' | '\\' | '\x7f'..='\u{9f}')
}

// A byte that is not said as it stands.
fn put_odd(host: &mut Host, stream: Stream, byte: u8) {
    match byte {
        b'\n' => write(host, stream, b"\\n"),
        b'\t' => write(host, stream, b"\\t"),
        b'"' => write(host, stream, b"\\\""),
        b'\\' => write(host, stream, b"\\\\"),
        _ => print(host, stream, format_args!("\\x{byte:02x}")),
    };
}

// Bytes of which none is said as it stands.
fn put_all_odd(host: &mut Host, stream: Stream, bytes: &[u8]) {
    for byte in bytes {
        put_odd(host, stream, *byte);
    }
}

// Characters of which only the last may be one that is not said as it stands.
fn put_piece(host: &mut Host, stream: Stream, piece: &str) {
    let plain = piece.trim_end_matches(is_odd);
    write(host, stream, plain.as_bytes());
    put_all_odd(host, stream, &piece.as_bytes()[plain.len()..]);
}

// A text without quotes round it, on a stream.
pub fn put_escaped(host: &mut Host, stream: Stream, text: &[u8]) {
    for chunk in text.utf8_chunks() {
        for piece in chunk.valid().split_inclusive(is_odd) {
            put_piece(host, stream, piece);
        }
        put_all_odd(host, stream, chunk.invalid());
    }
}

// A text between quotes, on standard output, in these styles.
pub fn say_quoted(host: &mut Host, text: &[u8], styles: Styles) {
    say(host, b"\"");
    begin_styles(host, styles);
    put_escaped(host, Stream::Output, text);
    end_styles(host, styles);
    say(host, b"\"");
}
