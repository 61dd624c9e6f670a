// A stripe in flight by value, and what a call changes in the state: the numbers in front of its arrays, and one eighth of them (01, Write; Landing).
#![tactic(auto)]

ghost use Rattle.std.specs.Prelude.{◌≡◌, not, ◌<◌, eqb, get_or, length};
ghost use Rattle.spec.specs.Lists.{below, keep};
ghost use Rattle.mem_rows.specs.Rows.{no_row, front_of, kept_as};

use spec::{Answer, Serial, Stamp, State};

// One eighth of the state's arrays: the stripe's number, how many data positions are filled, which are writes, which drives have it; addresses and
// stamps by data position, offsets by drive.
#[derive(Clone, Copy)]
pub struct Row {
    pub number: u32,
    pub filled: u8,
    pub writes: u8,
    pub landed: u8,
    pub addresses: [u64; 8],
    pub stamps: [u64; 8],
    pub offsets: [u32; 8],
}

// What a call answers and changes in the state; slot 8: no eighth changes.
#[derive(Clone, Copy)]
pub struct Change {
    pub answer: Answer,
    pub stamp: Stamp,
    pub serial: Serial,
    pub opened: u64,
    pub next: u32,
    pub slot: usize,
    pub row: Row,
}

// What a call asks of the state before it looks at one eighth: the numbers in front, and of each eighth the stripe's number and how many data positions are filled.
#[derive(Clone, Copy)]
pub struct Front {
    pub stamp: Stamp,
    pub serial: Serial,
    pub opened: u64,
    pub next: u32,
    pub numbers: [u32; 8],
    pub filled: [u8; 8],
}

// The front of a state.
pub fn front_of(state: State) -> Front
    ensures { result ≡ front_of state }
{
    let stamp = state.stamp;
    let serial = state.serial;
    let numbers = state.numbers;
    let filled = state.filled;
    Front {
        stamp,
        serial,
        opened: state.opened,
        next: state.next,
        numbers,
        filled,
    }
}

// An eighth of zeros.
fn no_row() -> Row
    ensures { result ≡ no_row }
{
    Row {
        number: 0,
        filled: 0,
        writes: 0,
        landed: 0,
        addresses: [0u64; 8],
        stamps: [0u64; 8],
        offsets: [0u32; 8],
    }
}

// An answer that leaves the state as it is; after a refusal or a cut the rest of a change says nothing.
pub fn kept(answer: Answer, f: Front) -> Change
    ensures { result ≡ kept_as answer f }
{
    let stamp = f.stamp;
    let serial = f.serial;
    let row = no_row();
    Change {
        answer,
        stamp,
        serial,
        opened: f.opened,
        next: f.next,
        slot: 8,
        row,
    }
}

// ---- how many data positions are filled, eighth by eighth

// Eighth i has none filled.
pub fn is_free(filled: [u8; 8], i: usize) -> bool
    requires { i < 8 }
    ensures { result ≡ eqb (get_or filled i 0) 0 }
{
    filled[i] == 0
}

// How many eighths have some: as many stripes are in flight.
pub fn in_flight(filled: [u8; 8]) -> usize
    ensures { result ≡ length (keep (λ k. not (eqb (get_or filled k 0) 0)) (below 8)) }
{
    let mut n = 0;
    for i in 0..8 {
        if !is_free(filled, i) {
            n += 1;
        }
    }
    n
}
