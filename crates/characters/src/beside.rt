// The character before a place of a document, and the one after it.
//
// A byte below 128 is a character by itself, and most neighbours are such. Past ASCII the byte that leads says how many bytes there are to be: forward it stands
// at the place, backward it is the first that is no follower. A sequence that is not whole, or not well formed, is no character.
//
// The answer is a character in any case: where none is there, at the document's edge, a line feed stands for it, which is whitespace; and for what is malformed
// the zero byte, which is other.

ghost use Rattle.std.specs.Prelude.{◌≡◌, ◌≤◌, ◌&&◌, nat_le, if◌then◌else◌, length};
ghost use Rattle.characters.specs.Utf8.{character_of, is_character};
ghost use Rattle.characters.specs.Beside.{character_from, character_up_to, neighbour_before, neighbour_after};
ghost use Rattle.characters.specs.StandIn.{stand_in};

// What stands for the document's edge.
const EDGE: u32 = 10;

// What stands for bytes that are no character.
const MALFORMED: char = '\0';

// The character that some bits make, but none that needs fewer bytes, and no surrogate.
#[tactic(auto, using(crate::proofs::Forms::made, std::proofs::lemmas::Bool::Decides::nat_tests), unfolding(crate::specs::Utf8::is_character))]
#[inline(always)]
fn at_least(least: u32, c: u32) -> Option<char>
    ensures { result ≡ (if nat_le least c && is_character c then Some c else None) }
{
    if c < least { None } else { char::from_u32(c) }
}

// The character whose form these bytes are. It is inlined, so that how many there are is known where they are matched.
#[tactic(auto, using(crate::proofs::Forms::by_bytes, std::proofs::lemmas::Bool::Decides::nat_tests), unfolding(crate::specs::Utf8::is_character))]
#[inline(always)]
fn character_of(bytes: &[u8]) -> Option<char>
    ensures { result ≡ character_of bytes.now }
{
    match *bytes {
        [a @ 0..=127] => Some(char::from(a)),
        [a @ 192..=223, b @ 128..=191] => {
            at_least(128, (u32::from(a) - 192) * 64 + (u32::from(b) - 128))
        }
        [a @ 224..=239, b @ 128..=191, d @ 128..=191] => at_least(
            2048,
            (u32::from(a) - 224) * 4096 + (u32::from(b) - 128) * 64 + (u32::from(d) - 128),
        ),
        [a @ 240..=247, b @ 128..=191, d @ 128..=191, e @ 128..=191] => at_least(
            65536,
            (u32::from(a) - 240) * 262144
                + (u32::from(b) - 128) * 4096
                + (u32::from(d) - 128) * 64
                + (u32::from(e) - 128),
        ),
        _ => None,
    }
}

// The character that some bytes begin with: the first of them says how many there are to be.
#[tactic(auto, using(crate::proofs::Neighbours::firsts))]
fn first_of(bytes: &[u8]) -> Option<char>
    ensures { result ≡ character_from bytes.now 0 }
{
    if let [a @ 0..=127, ..] = *bytes {
        return Some(char::from(a));
    }
    if let [a @ 0..=223, b, ..] = *bytes {
        return character_of(&[a, b]);
    }
    if let [a @ 0..=239, b, d, ..] = *bytes {
        return character_of(&[a, b, d]);
    }
    if let [a, b, d, e, ..] = *bytes {
        return character_of(&[a, b, d, e]);
    }
    None
}

// The character that some bytes end with: the last of them that is no follower leads.
#[tactic(auto, using(crate::proofs::Neighbours::lasts))]
fn last_of(bytes: &[u8]) -> Option<char>
    ensures { result ≡ character_up_to bytes.now (length bytes.now) }
{
    if let [.., a @ 0..=127] = *bytes {
        return Some(char::from(a));
    }
    if let [.., a @ 192..=255, b] = *bytes {
        return character_of(&[a, b]);
    }
    if let [.., a @ 192..=255, b, d] = *bytes {
        return character_of(&[a, b, d]);
    }
    if let [.., a, b, d, e] = *bytes {
        return character_of(&[a, b, d, e]);
    }
    None
}

// What stands before a place.
#[tactic(auto, using(crate::proofs::Neighbours::edge_stands_before, crate::proofs::Neighbours::stands_before))]
pub fn neighbour_before(doc: &[u8], at: usize) -> u32
    requires { at ≤ length doc.now }
    ensures { result ≡ stand_in (neighbour_before doc.now at) }
{
    if at == 0 {
        return EDGE;
    }
    u32::from(last_of(&doc[..at]).unwrap_or(MALFORMED))
}

// What stands after it.
#[tactic(auto, using(crate::proofs::Neighbours::edge_stands_after, crate::proofs::Neighbours::stands_after))]
pub fn neighbour_after(doc: &[u8], at: usize) -> u32
    ensures { result ≡ stand_in (neighbour_after doc.now at) }
{
    if at >= doc.len() {
        return EDGE;
    }
    u32::from(first_of(&doc[at..]).unwrap_or(MALFORMED))
}
