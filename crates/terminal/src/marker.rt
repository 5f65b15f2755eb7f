// The bytes that runs of attention are made of.

use record::limits::{OPTION_ATTENTION, OPTION_STRIKETHROUGH};

// Whether an option, which is a power of two, is in a sum of options.
fn is_on(options: u32, option: u32) -> bool {
    options & option != 0
}

// The marker that a byte is, or none where its option is off.
pub fn marker(byte: u8, options: u32) -> Option<u8> {
    let option = match byte {
        b'*' | b'_' => OPTION_ATTENTION,
        b'~' => OPTION_STRIKETHROUGH,
        _ => return None,
    };
    is_on(options, option).then_some(byte)
}
