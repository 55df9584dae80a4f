// What each pair of a ligature program settles to, found by a search in depth that keeps what it
// finds in the room. An entry is key * 2048 + state * 256 + code, the key is 256 * left + right, and
// the entries stand in order of their keys. It is packed into a u32 because the room is the caller's
// memory, of a fixed size: nothing else may be kept of a pair. States: 0 settled, to the code; 1, 2,
// 3 not yet: go on with the code on the left, on the right, with both; 4 being settled; 5 never
// settles.
#![tactic(auto)]

ghost use Rattle.std.specs.Prelude.{length, ℕ, ◌≡◌, ◌<◌, List, eqb, IfSome, unwrap_or};
ghost use Rattle.settle.specs.Settle.{key_of, st_of, val_of, step_of, Program, Settled, Judged, Told, Ended, EndedFirst, outcome_number};
ghost use Rattle.settle.specs.Room.{Sorted, Found, Fresh, Looked, Marked, Stored, Turned, Visitable, Visited, IsState};

// How far an entry's pair is: settled; not yet, and then with which code to go on; or held, that is
// being settled, or known never to settle.
#[derive(Clone, Copy)]
enum State {
    Settled,
    Left,
    Right,
    Both,
    Held,
}

// What one more in the key adds to an entry: its state and code stand below the key.
pub const KEY: u32 = 2048;

// What is added to the key of an entry that is being settled, and of one that never settles.
const PENDING: u32 = 1024;

const LOOPS: u32 = 1280;

// The key of an entry's pair.
pub fn key_of(e: u32) -> u32
    ensures { result ≡ key_of e }
{
    e / KEY
}

// Whether an entry of a settled room is of a pair that never settles: state 5, which `State` has together with 4, as none of what is done by
// state tells them apart.
pub fn loops(e: u32) -> bool
    ensures { result ≡ eqb (st_of e) 5 }
{
    e / 256 % 8 == 5
}

fn state_of(e: u32) -> State
    ensures { IsState result (st_of e) }
{
    match e / 256 % 8 {
        0 => State::Settled,
        1 => State::Left,
        2 => State::Right,
        3 => State::Both,
        _ => State::Held,
    }
}

fn code_of(e: u32) -> u8
    ensures { result ≡ val_of e }
{
    (e % 256) as u8
}

// The index of the entry with the key; in a room that is out of order any answer serves.
fn find(room: &[u32], key: u32) -> Option<usize>
    ensures within { IfSome result (λ i. i < length room.now) }
    ensures found { Sorted room.now → Found room.now key (unwrap_or result (length room.now)) }
{
    room.binary_search_by_key(&key, |e| key_of(*e)).ok()
}

// The entry with the outcome w of its pair.
fn mark(e: u32, w: Option<u8>) -> u32
    ensures { Marked e (outcome_number w) result }
{
    key_of(e) * KEY + w.map_or(LOOPS, u32::from)
}

fn store(room: &mut [u32], k: usize, w: Option<u8>)
    requires { k < length room.old }
    ensures { Stored room.old k (outcome_number w) room.new }
{
    room[k] = mark(room[k], w);
}

// What the pair of x and y settles to; None: it never does. In line, so that each pair that is
// being settled takes one frame of the stack alone: include/nyelgomir.h says how much.
#[cycle(lookup_settle)]
#[inline(always)]
fn lookup(room: &mut [u32], x: u16, y: u8) -> Option<u8>
    requires { Sorted room.old }
    ensures { Looked room.old x y room.new (outcome_number result) }
{
    let Some(i) = find(room, u32::from(x) * 256 + u32::from(y)) else {
        return Some(y);
    };
    let e = room[i];
    match state_of(e) {
        State::Settled => Some(code_of(e)),
        State::Held => None,
        State::Left | State::Right | State::Both => settle(room, i),
    }
}

// Settles the pair of the entry k, and says what it settles to; None: it never does.
#[cycle(lookup_settle)]
fn settle(room: &mut [u32], k: usize) -> Option<u8>
    requires { Fresh room.old k }
    ensures { Turned room.old k room.new (outcome_number result) }
{
    let e = room[k];
    let left = (key_of(e) / 256) as u16;
    let right = (key_of(e) % 256) as u8;
    let z = code_of(e);
    room[k] = key_of(e) * KEY + PENDING;
    match state_of(e) {
        State::Left => {
            let w = lookup(room, u16::from(z), right);
            store(room, k, w);
            w
        }
        State::Right => {
            let w = lookup(room, left, z);
            store(room, k, w);
            w
        }
        // It is Both: the entry is of a pair that is not yet being settled.
        _ => {
            let Some(v) = lookup(room, left, z) else {
                store(room, k, None);
                return None;
            };
            let w = lookup(room, u16::from(v), right);
            store(room, k, w);
            w
        }
    }
}

// Settles the pair of the entry k unless that is done.
fn visit(room: &mut [u32], k: usize)
    requires { Visitable room.old k }
    ensures { Visited room.old k room.new }
{
    match state_of(room[k]) {
        State::Settled | State::Held => (),
        State::Left | State::Right | State::Both => {
            settle(room, k);
        }
    }
}

// Settles every pair of the program in the room. It counts, as `visit` may write any entry: the room
// is lent whole at each turn, and no iterator may hold it meanwhile.
fn settle_program(room: &mut [u32])
    requires { Program room.old }
    ensures { Settled room.old room.new }
{
    for k in 0..room.len() {
        visit(room, k);
    }
}

// Whether the room holds a program: each entry has a step, and its key is below the next one's.
fn is_program(room: &[u32]) -> bool
    ensures { Judged (Program room.now) result }
{
    room.iter().all(|e| !matches!(state_of(*e), State::Held))
        && room.is_sorted_by(|e, next| key_of(*e) < key_of(*next))
}

// Settles every pair of the program in the room; false, and the room as it was, if it holds none. A
// bool, as `Ended` says the answer as a test of `Program`, and nothing rides with it.
fn settle_all(room: &mut [u32]) -> bool
    ensures { Ended room.old result room.new }
{
    if !is_program(room) {
        return false;
    }
    settle_program(room);
    true
}

// What the pair of x and y settles to in a room whose pairs are settled; None: it never does.
pub fn outcome(room: &[u32], x: u16, y: u8) -> Option<u8>
    ensures { (P : List ℕ) → Program P → Settled P room.now → Told (step_of P) x y (outcome_number result) }
{
    let Some(i) = find(room, u32::from(x) * 256 + u32::from(y)) else {
        return Some(y);
    };
    let e = room[i];
    match state_of(e) {
        State::Settled => Some(code_of(e)),
        _ => None,
    }
}

// Settles the program in the first n entries of the room; false, and the room as it was, if they
// are no program. The length is tested by hand, as `get_mut` does not say what the room ends as. A
// bool, as `EndedFirst` says the answer as a test of `Program`, and nothing rides with it.
pub fn settle_pairs(room: &mut [u32], n: usize) -> bool
    ensures { EndedFirst room.old n result room.new }
{
    if room.len() < n {
        return false;
    }
    settle_all(&mut room[..n])
}
