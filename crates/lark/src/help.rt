// Help and version: the words that ask for them, and what is then said.

use terminal::host::{Host, Stream, argument_count, argument_length};
use terminal::say::write;

// What the arguments ask for in the place of a command.
#[derive(Clone, Copy)]
pub enum Wish {
    Help,
    Version,
}

// What the arguments from a number on ask for: the first that asks for something, wherever it stands before --.
pub fn wish_from(host: &Host, from: usize) -> Option<Wish> {
    for i in from..argument_count(host) {
        let mut word = [0u8; 16];
        let n = argument_length(host, i, &mut word);
        match &word[..n] {
            b"--help" | b"-h" => return Some(Wish::Help),
            b"--version" => return Some(Wish::Version),
            b"--" => return None,
            _ => {}
        }
    }
    None
}

// The version, which the header and the binding have too; whether it was written.
pub fn say_version(host: &mut Host) -> bool {
    write(host, Stream::Output, b"lark 0.7.0\n")
}

// All of it, on a descriptor, as it stands on the terminal; whether it was written.
pub fn say_help(host: &mut Host, stream: Stream) -> bool {
    write(
        host,
        stream,
        b"lark: what Ledgerlark makes of a text, a line or a record

  lark show [-o N] [--form 2] [TEXT]            the groups that a text's attention runs form, as a tree
  lark line [-o N] [--form 2] [--column COLUMN] [-i] [-c SIZE [-b]] [TEXT]
                                                what the line readers find in a line; --column COLUMN: which starts at
                                                that column, 0 without it; -i: where it would interrupt a paragraph;
                                                -c SIZE: as a further line of an item of that size, -b: whose flag is
                                                set
  lark record [-o N] [--form 2] [TEXT]          the record that show makes of a text
  lark record [-o N] [--form 2] TEXT EVENT..    the record of a text and of these events
  lark attention [-o N | --form 2] [-t] [FILE]  a record's events with the attention runs resolved; -t: as text
  lark headings [-o N | --form 2] [-t] [FILE]   the same with the headings resolved
  lark lists [-o N | --form 2] [-t] [FILE]      the same with the lists resolved
  lark read [-o N | --form 2] [FILE]            whether a record is good, and its two counts
  lark help                                     these words; --help or -h does the same, also behind a command
  lark version                                  the version; --version does the same, also behind a command

Without TEXT or FILE, or with - for FILE, standard input is read; of a TEXT that comes from there one line feed at the
end is dropped. A TEXT may begin with a dash; -- ends the options, and behind it even --help is a TEXT. show and record
take each longest run of one marker for an attention run and all between for data: they know nothing of escapes, code
or links.

An EVENT is what -t prints: + or - for enter or exit, a name, @ and a place. The name is a number or its word, as in
+11@0 or +HeadingAtx@0; several EVENTs may stand in one argument. Behind a TEXT every word of record's but --help, -h
and --version is an EVENT. The words for 0 to 24, in capitals or small letters:
  Data AttentionSequence Emphasis EmphasisSequence EmphasisText Strong StrongSequence StrongText
  GfmStrikethrough GfmStrikethroughSequence GfmStrikethroughText HeadingAtx HeadingAtxSequence HeadingAtxText
  SpaceOrTab ListItem ListItemPrefix ListItemMarker ListItemValue ListOrdered ListUnordered LineEnding
  BlankLineEnding BlockQuotePrefix OtherContainer

Without --form a record is of form 1, as with --form 1: its options stand beside it. In form 2 they are in it, and with
each event the number of its partner, the exit of an enter or the enter of an exit, printed behind a slash: +2@0/9 is
left by event 9, counted from 0. An EVENT is given without that number, and record puts it in. -o gives a record that is
made of a TEXT its options; one that is read has its own, and read says them. show answers alike in both forms.

A tab goes to the next column that is a multiple of 4; a SIZE means columns too. What is taken of a line is said in
bytes. Where line says left, a tab is cut: its byte is not taken, and so many of its columns are left.

N is a sum: 1 attention, 2 strikethrough, 4 single tilde, 8 heading, 16 list item, 32 code indented; 59 without -o.
Exit status: 0 answered; 1 refused, with the refusal on standard error; 2 bad arguments, or a file that fails. The place
that a refusal names is an offset in the TEXT, or in the record where a FILE is read.
",
    )
}
