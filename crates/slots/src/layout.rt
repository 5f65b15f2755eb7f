// What stands where in lent work memory, by name. specs/Layout.antt has the whole map: slots of runs, heads of chains, the open runs, groups.

ghost use Rattle.std.specs.Prelude.{◌≡◌, ◌<◌, ℕ, Bool, List};
ghost use Rattle.std.proofs.Common.{arith};
ghost use Rattle.slots.specs.Layout.{Room, whole_of, left_of, marker_of, opens_of, closes_of, chain_of, link_of, first_group_of, latest_group_of, head_of, open_at, group_opener, group_closer, group_taken, group_earlier, with_whole, with_left, with_marker, with_opens, with_closes, with_chain, with_link, with_first_group, with_latest_group, with_head, with_open_at, with_group_opener, with_group_closer, with_group_taken, with_group_earlier, with_group, bit};
ghost use Rattle.slots.specs.Fields.{Stands, StandsFlag, flag_in_slot, in_slot, first_in_slot, in_heads, in_open, in_group, first_in_group};

use super::words::{get16, put16};

// A number of two bytes that stands once in each of several pieces of one size: in the slot of each run, in each group, or alone.
pub trait Field {
    ghost FROM: { ℕ };

    ghost STEP: { ℕ };

    // How many there are.
    ghost count: { ℕ };

    // The one of a piece, and the memory with another in its place.
    ghost of: { List ℕ → ℕ → ℕ };

    ghost with_new: { List ℕ → ℕ → ℕ → List ℕ };

    ghost stands: { Stands FROM STEP count of with_new };

    // Where the first one stands, and how far the next is from it.
    const FROM: usize;

    const STEP: usize;
}

// The number that a piece has.
pub fn get<F: Field>(w: &[u8], i: usize) -> usize
    requires { (i < F.count) × Room w.now }
    ensures { (result ≡ F.of w.now i) × (result < 65536) }
{
    get16(w, i * F::STEP + F::FROM)
}

// Writes the number that a piece has.
pub fn put<F: Field>(w: &mut [u8], i: usize, v: usize)
    requires { (i < F.count) × ((v < 65536) × Room w.old) }
    ensures { w.new ≡ F.with_new w.old i v }
{
    put16(w, i * F::STEP + F::FROM, v);
}

// The size of a whole run.
pub struct Whole;

impl Field for Whole {
    ghost FROM = { 0 };

    ghost STEP = { 16 };

    ghost count = { 1024 };

    ghost of = { whole_of };

    ghost with_new = { with_whole };

    ghost stands = { first_in_slot };

    const FROM: usize = 0;

    const STEP: usize = 16;
}

// The markers that a run has left.
pub struct Left;

impl Field for Left {
    ghost FROM = { 2 };

    ghost STEP = { 16 };

    ghost count = { 1024 };

    ghost of = { left_of };

    ghost with_new = { with_left };

    ghost stands = { in_slot 2 (Prim.omega arith) };

    const FROM: usize = 2;

    const STEP: usize = 16;
}

// The number of a run's chain.
pub struct Chain;

impl Field for Chain {
    ghost FROM = { 8 };

    ghost STEP = { 16 };

    ghost count = { 1024 };

    ghost of = { chain_of };

    ghost with_new = { with_chain };

    ghost stands = { in_slot 8 (Prim.omega arith) };

    const FROM: usize = 8;

    const STEP: usize = 16;
}

// The next older run on a run's chain, plus 1; 0 for none.
pub struct Link;

impl Field for Link {
    ghost FROM = { 10 };

    ghost STEP = { 16 };

    ghost count = { 1024 };

    ghost of = { link_of };

    ghost with_new = { with_link };

    ghost stands = { in_slot 10 (Prim.omega arith) };

    const FROM: usize = 10;

    const STEP: usize = 16;
}

// A run's first group as a closer, plus 1; 0 for none.
pub struct FirstGroup;

impl Field for FirstGroup {
    ghost FROM = { 12 };

    ghost STEP = { 16 };

    ghost count = { 1024 };

    ghost of = { first_group_of };

    ghost with_new = { with_first_group };

    ghost stands = { in_slot 12 (Prim.omega arith) };

    const FROM: usize = 12;

    const STEP: usize = 16;
}

// A run's latest group as an opener, plus 1; 0 for none.
pub struct LatestGroup;

impl Field for LatestGroup {
    ghost FROM = { 14 };

    ghost STEP = { 16 };

    ghost count = { 1024 };

    ghost of = { latest_group_of };

    ghost with_new = { with_latest_group };

    ghost stands = { in_slot 14 (Prim.omega arith) };

    const FROM: usize = 14;

    const STEP: usize = 16;
}

// The latest run on a chain, plus 1; 0 for none.
pub struct Head;

impl Field for Head {
    ghost FROM = { 16384 };

    ghost STEP = { 2 };

    ghost count = { 6147 };

    ghost of = { head_of };

    ghost with_new = { with_head };

    ghost stands = { in_heads };

    const FROM: usize = 16384;

    const STEP: usize = 2;
}

// The open run at a height.
pub struct OpenRun;

impl Field for OpenRun {
    ghost FROM = { 28678 };

    ghost STEP = { 2 };

    ghost count = { 1024 };

    ghost of = { open_at };

    ghost with_new = { with_open_at };

    ghost stands = { in_open };

    const FROM: usize = 28678;

    const STEP: usize = 2;
}

// A group's opener.
pub struct GroupOpener;

impl Field for GroupOpener {
    ghost FROM = { 30726 };

    ghost STEP = { 8 };

    ghost count = { 1000 };

    ghost of = { group_opener };

    ghost with_new = { with_group_opener };

    ghost stands = { first_in_group };

    const FROM: usize = 30726;

    const STEP: usize = 8;
}

// A group's closer.
pub struct GroupCloser;

impl Field for GroupCloser {
    ghost FROM = { 30728 };

    ghost STEP = { 8 };

    ghost count = { 1000 };

    ghost of = { group_closer };

    ghost with_new = { with_group_closer };

    ghost stands = { in_group 2 (Prim.omega arith) };

    const FROM: usize = 30728;

    const STEP: usize = 8;
}

// How many markers a group takes from each side.
pub struct GroupTaken;

impl Field for GroupTaken {
    ghost FROM = { 30730 };

    ghost STEP = { 8 };

    ghost count = { 1000 };

    ghost of = { group_taken };

    ghost with_new = { with_group_taken };

    ghost stands = { in_group 4 (Prim.omega arith) };

    const FROM: usize = 30730;

    const STEP: usize = 8;
}

// The opener's group before a group, plus 1; 0 for none.
pub struct GroupEarlier;

impl Field for GroupEarlier {
    ghost FROM = { 30732 };

    ghost STEP = { 8 };

    ghost count = { 1000 };

    ghost of = { group_earlier };

    ghost with_new = { with_group_earlier };

    ghost stands = { in_group 6 (Prim.omega arith) };

    const FROM: usize = 30732;

    const STEP: usize = 8;
}

// A flag in the slot of each run.
pub trait Flag {
    ghost FROM: { ℕ };

    // The one of a run, and the memory with another in its place, as a byte.
    ghost of: { List ℕ → ℕ → Bool };

    ghost with_new: { List ℕ → ℕ → ℕ → List ℕ };

    ghost stands: { StandsFlag FROM of with_new };

    // Which byte of the slot it is.
    const FROM: usize;
}

// Whether a run has the flag.
pub fn has<G: Flag>(w: &[u8], i: usize) -> bool
    requires { (i < 1024) × Room w.now }
    ensures { result ≡ G.of w.now i }
{
    w[i * 16 + G::FROM] != 0
}

// Writes whether a run has the flag.
pub fn put_flag<G: Flag>(w: &mut [u8], i: usize, on: bool)
    requires { (i < 1024) × Room w.old }
    ensures { w.new ≡ G.with_new w.old i (bit on) }
{
    w[i * 16 + G::FROM] = on as u8;
}

// Whether a run can open.
pub struct Opens;

impl Flag for Opens {
    ghost FROM = { 5 };

    ghost of = { opens_of };

    ghost with_new = { with_opens };

    ghost stands = { flag_in_slot 5 (Prim.omega arith) };

    const FROM: usize = 5;
}

// Whether a run can close.
pub struct Closes;

impl Flag for Closes {
    ghost FROM = { 6 };

    ghost of = { closes_of };

    ghost with_new = { with_closes };

    ghost stands = { flag_in_slot 6 (Prim.omega arith) };

    const FROM: usize = 6;
}

// A run's marker.
pub fn marker(w: &[u8], i: usize) -> u8
    requires { (i < 1024) × Room w.now }
    ensures { result ≡ marker_of w.now i }
{
    w[i * 16 + 4]
}

// Writes a run's marker.
pub fn put_marker(w: &mut [u8], i: usize, v: u8)
    requires { (i < 1024) × Room w.old }
    ensures { w.new ≡ with_marker w.old i v }
{
    w[i * 16 + 4] = v;
}

// Writes a group: its opener, its closer, what it takes, and the opener's group before it.
pub fn put_group(w: &mut [u8], g: usize, o: usize, c: usize, k: usize, e: usize)
    requires { (g < 1000) × ((o < 65536) × ((c < 65536) × ((k < 65536) × ((e < 65536) × Room w.old)))) }
    ensures { w.new ≡ with_group w.old g o c k e }
{
    put::<GroupOpener>(w, g, o);
    put::<GroupCloser>(w, g, c);
    put::<GroupTaken>(w, g, k);
    put::<GroupEarlier>(w, g, e);
}
