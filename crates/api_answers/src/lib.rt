// What the host hears of a call, in C: an answer as numbers, the state as bytes (01, The array; Store count; Refusals).
#![tactic(auto)]

ghost use Rattle.std.specs.Prelude.{◌≡◌, cond, ◌&&◌, length};
ghost use Rattle.spec.specs.Host.{told_of};
ghost use Rattle.law_lent.specs.Shorts.{short_answer};
ghost use Rattle.spec.specs.Answers.{is_refused};
ghost use Rattle.spec.specs.Memory.{state_len, state_bytes, state_of};
ghost use Rattle.spec.specs.Params.{in_range};
ghost use Rattle.spec.specs.Rebuild.{names_missing};
ghost use Rattle.spec.specs.Restart.{names_drive};
ghost use Rattle.mem_rows.specs.Rows.{state_after};

use mem_rows::Change;
use spec::{Answer, Done, Params, Told};

fn number(kind: u64, n: u64) -> Told
    ensures { result ≡ record { kind = kind; first = n; second = 0; third = 0 } }
{
    Told {
        kind,
        first: n,
        second: 0,
        third: 0,
    }
}

// The kind and the values of an answer.
pub fn told_of(answer: Answer) -> Told
    ensures { result ≡ told_of answer }
{
    match answer {
        Answer::Refused(n) => number(0, n),
        Answer::BadZone(z) => Told {
            kind: 1,
            first: 9,
            second: z,
            third: 0,
        },
        Answer::Cut => number(2, 0),
        Answer::Sent(t, s, d) => Told {
            kind: 3,
            first: t.0,
            second: s,
            third: d,
        },
        Answer::Landed(n) => number(4, n),
        Answer::Closed(s) => number(5, s),
        Answer::Copied(t, s, d) => Told {
            kind: 6,
            first: t.0,
            second: s,
            third: d,
        },
        Answer::Reset(z) => number(7, z),
        Answer::Part(n, t) => Told {
            kind: 8,
            first: n,
            second: t.0,
            third: 0,
        },
        Answer::Never => number(9, 0),
        Answer::Lost(t) => number(10, t.0),
        Answer::Filled(t) => number(11, t.0),
        Answer::Restarted(r) => number(12, r.uncounted),
        Answer::Rebuilt => number(13, 0),
        Answer::Nothing => number(14, 0),
    }
}

// 01, Store count: a refusal leaves the state's bytes.
pub fn finish(state: &mut [u8], done: Done) -> Told
    requires { length state.old ≡ state_len }
    ensures { (result ≡ told_of done.answer) × (state.new ≡ cond (is_refused done.answer) state.old (state_bytes done.state)) }
{
    let answer = done.answer;
    let r = told_of(answer);
    if r.kind <= 1 {
        return r;
    }
    let next = done.state;
    mem_codec::encode(state, next);
    r
}

// 01, Refusals: 1, where a number is not good, and then 2: a buffer has another length.
pub fn short_of(good: bool) -> Told
    ensures { result ≡ told_of (short_answer good) }
{
    if good {
        return told_of(Answer::Refused(2));
    }
    told_of(Answer::Refused(1))
}

// 01, Refusals, 1: the parameters, and a restart's missing drive.
pub fn good_restart(p: Params, missing: usize) -> bool
    ensures { result ≡ (in_range p && names_drive p missing) }
{
    if !disk_shape::in_range(p) {
        return false;
    }
    if missing < p.N {
        return true;
    }
    missing == 255
}

// The mask of missing drives in the state's bytes, whatever their length.
fn missing_in(state: &[u8]) -> u8
    ensures { result ≡ (state_of state.now).missing }
{
    if state.len() < 2 {
        return 0;
    }
    state[1]
}

// 01, Refusals, 1: the parameters, and the drive that the last restart named missing.
pub fn good_rebuild(p: Params, state: &[u8], drive: usize) -> bool
    ensures { result ≡ (in_range p && names_missing p (state_of state.now) drive) }
{
    if !disk_shape::in_range(p) {
        return false;
    }
    if p.N <= drive {
        return false;
    }
    missing_in(state) == bits_masks::only_drive(drive)
}

// 01, Store count: a refusal leaves the state's bytes, a cut leaves zeros, else the change is made in them.
pub fn apply(state: &mut [u8], change: Change) -> Told
    requires { length state.old ≡ state_len }
    ensures { (result ≡ told_of change.answer) × (state.new ≡ cond (is_refused change.answer) state.old
        (state_bytes (state_after (state_of state.old) change))) }
{
    let answer = change.answer;
    let r = told_of(answer);
    if r.kind <= 1 {
        return r;
    }
    if r.kind == 2 {
        disk_blocks::clear(state);
        return r;
    }
    mem_codec::put_change(state, change);
    r
}
