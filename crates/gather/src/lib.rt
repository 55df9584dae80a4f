// The pairs of a font's ligature program, put into the lent room in order of their keys and settled
// there: which is the smallest that loops, and what one of them leaves. The font is that of the
// mended copy; entries, keys and states are those of `settle`, whose first lines say how they are
// packed.
#![tactic(auto)]

mod entries;

ghost use Rattle.std.specs.Prelude.{◌≡◌, ◌<◌, length, replicate, Option, IfOk, IfErr};
ghost use Rattle.lent.specs.Write.{pen, each, flat, Wrote};
ghost use Rattle.gather.specs.Steps.{next};
ghost use Rattle.gather.specs.Answers.{SmallestAs, PairAs, room_after, count};
ghost use Rattle.gather.specs.Pairs.{packed_of, codes, Noted, Walked, row_in, Outcomes, FirstPair};
ghost use Rattle.gather.specs.Fonts.{steps_of, row_of, text_of};
ghost use Rattle.gather.specs.Entries.{Entered};

use entries::Entries;
use tfm::{Font, Refusal};

// A left and a right code.
#[derive(Clone, Copy, Debug, PartialEq, Eq)]
pub struct Pair {
    pub left: u32,
    pub right: u32,
}

// The state and code of a step's entry, 256 * state + code: numbers, as `packed_of` adds them, and no `State`, which is what an entry is read by.
#[tactic(auto, unfolding(crate::specs::Pairs::packed_of))]
fn packed(op: u8, y: u8, z: u8) -> u16
    ensures { result ≡ packed_of op y z }
{
    match op {
        128..=255 | 5 | 11 => u16::from(y),
        1 | 7 => 256 + u16::from(z),
        2 => 512 + u16::from(z),
        3 => 768 + u16::from(z),
        _ => u16::from(z),
    }
}

// The step after step i, or nl: never past it, so that a u32 holds it.
#[tactic(auto, unfolding(crate::specs::Steps::next))]
fn next(steps: &[u8], nl: u32, i: u32) -> u32
    ensures { result ≡ next steps.now nl i }
{
    if tfm::byte_of(steps, i, 0) < 128 {
        program::next_step(steps, i).min(nl as usize) as u32
    } else {
        nl
    }
}

// Notes step i in the table of right codes, unless an earlier step for its right code is there.
fn note(steps: &[u8], i: u32, table: &mut [Option<u16>])
    ensures { Noted steps.now i (codes table.old) (codes table.new) }
{
    if 128 < tfm::byte_of(steps, i, 0) {
        return;
    }
    let right = tfm::byte_of(steps, i, 1);
    let step = packed(tfm::byte_of(steps, i, 2), right, tfm::byte_of(steps, i, 3));
    let held = lent::at(table, usize::from(right), None);
    lent::store(table, usize::from(right), held.or(Some(step)));
}

// Notes each step of the program that starts at start. No `for`: each step says which is next, and
// `std::iter::successors` would test for the end and make the next step apart from what is noted.
fn walk(steps: &[u8], nl: u32, start: u32, table: &mut [Option<u16>])
    ensures { Walked steps.now nl start (codes table.old) (codes table.new) }
{
    let mut i = start;
    while i < nl {
        note(steps, i, table);
        i = next(steps, nl, i);
    }
}

// The entries of a left code, by the table of its right codes.
fn put_row(entries: &mut Entries, left: u32, table: &[Option<u16>; 256])
    requires { left < 257 }
    ensures { Entered entries.old (each 256 (row_in left (codes table.now))) entries.new }
{
    for (right, &step) in table.iter().enumerate() {
        if let Some(step) = step {
            entries.put((left * 256 + right as u32) * settle::KEY + u32::from(step));
        }
    }
}

// The entries of a left code: none where it has no program.
fn put_left(font: &Font, entries: &mut Entries, left: u32)
    requires { left < 257 }
    ensures { Entered entries.old (row_of font.now left) entries.new }
{
    let nl = u32::from(font.layout.nl);
    let start = program::program_start(font, left);
    if nl <= start {
        return;
    }
    let mut table = [None; 256];
    walk(font.steps, nl, start, &mut table);
    put_row(entries, left, &table);
}

// The entries of all pairs. The place is answered, also where they do not fit, since it is how many there are to settle.
fn put_pairs(font: &Font, room: &mut [u32]) -> usize
    ensures { Wrote (pen room.old 0) (text_of font.now) (pen room.new result) }
{
    let mut entries = Entries::new(room);
    for left in 0..257 {
        put_left(font, &mut entries, left);
    }
    entries.end()
}

// Settles all pairs in the room, and answers how many there are; where they do not fit, the room is
// zeros.
fn settle_room(font: &Font, room: &mut [u32]) -> Result<usize, Refusal>
    ensures settled { IfOk result
        (λ n. Outcomes (steps_of font.now) (flat (text_of font.now)) room.old n room.new) }
    ensures few { IfErr result
        (λ e. (e ≡ Refusal.FewPairs) × (length room.old < count (steps_of font.now)) × (room.new ≡ replicate (length room.old) 0)) }
{
    lent::holds_bytes(font.steps);
    let n = put_pairs(font, room);
    if room.len() < n {
        room.fill(0);
        return Err(Refusal::FewPairs);
    }
    settle::settle_pairs(room, n);
    Ok(n)
}

// The pair of the first entry that loops.
fn first_loop(room: &[u32]) -> Option<Pair>
    ensures { FirstPair room.now result }
{
    let i = room.iter().position(|&e| settle::loops(e))?;
    let key = settle::key_of(room[i]);
    Some(Pair {
        left: key / 256,
        right: key % 256,
    })
}

// The smallest pair that loops, if one does; the room is zeros afterwards.
#[tactic(auto, using(crate::proofs::Tops::smallest_told))]
pub fn smallest_loop(font: &Font, room: &mut [u32]) -> Result<Option<Pair>, Refusal>
    ensures smallest_as { SmallestAs (steps_of font.now) (length room.old) result }
    ensures room_after { room.new ≡ replicate (length room.old) 0 }
{
    let n = settle_room(font, room)?;
    let smallest = first_loop(&room[..n]);
    room.fill(0);
    Ok(smallest)
}

// What the pair of two codes leaves left of the cursor, None where it never settles; the room is
// zeros afterwards, unless a code is out of range.
pub fn pair_outcome(
    font: &Font,
    room: &mut [u32],
    left: u32,
    right: u32,
) -> Result<Option<u32>, Refusal>
    ensures pair_as { PairAs (steps_of font.now) (length room.old) left right result }
    ensures room_after { room.new ≡ room_after room.old result }
{
    if 256 < left || 255 < right {
        return Err(Refusal::OutOfRange);
    }
    let n = settle_room(font, room)?;
    let outcome = settle::outcome(&room[..n], left as u16, right as u8);
    room.fill(0);
    Ok(outcome.map(u32::from))
}
