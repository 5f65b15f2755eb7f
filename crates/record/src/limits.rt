// The numbers of document 01's section "The record and its numbers", by name.

pub const MAX_DOCUMENT: usize = 16384;

pub const MAX_EVENTS: usize = 2048;

pub const MAX_DEPTH: usize = 64;

pub const MAX_RESULT: usize = 8000;

pub const MIN_WORK: usize = 65536;

// Kept: kinds and names are bytes of a record, which may hold any until it is checked; specs/Event.antt and specs/Rows.antt speak of them as numbers.

// An event's kinds.
pub const ENTER: u8 = 0;

pub const EXIT: u8 = 1;

// An event's names. A group's Sequence is its name plus 1, its Text its name plus 2.
pub const DATA: u8 = 0;

pub const ATTENTION_SEQUENCE: u8 = 1;

pub const EMPHASIS: u8 = 2;

pub const STRONG: u8 = 5;

pub const STRIKETHROUGH: u8 = 8;

pub const HEADING: u8 = 11;

pub const HEADING_SEQUENCE: u8 = 12;

pub const HEADING_TEXT: u8 = 13;

pub const SPACE_OR_TAB: u8 = 14;

pub const LIST_ITEM: u8 = 15;

pub const LIST_ITEM_PREFIX: u8 = 16;

pub const LIST_ITEM_MARKER: u8 = 17;

pub const LIST_ITEM_VALUE: u8 = 18;

pub const LIST_ORDERED: u8 = 19;

pub const LIST_UNORDERED: u8 = 20;

pub const LINE_ENDING: u8 = 21;

pub const BLANK_LINE_ENDING: u8 = 22;

pub const BLOCK_QUOTE_PREFIX: u8 = 23;

pub const LAST_NAME: u8 = 24;

// Kept: C hands them over as one number, and "options over 63" is a row of specs/Rows.antt.
// Options are summed.
pub const OPTION_ATTENTION: u32 = 1;

pub const OPTION_STRIKETHROUGH: u32 = 2;

pub const OPTION_SINGLE_TILDE: u32 = 4;

pub const MAX_OPTIONS: u32 = 63;
