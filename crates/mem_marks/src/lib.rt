// A set of numbers as marks: number k is bit k % 8 of byte k / 8 (01, Reclaim: a block that the table holds at several addresses is one block).
#![tactic(auto)]

ghost use Rattle.std.specs.Prelude.{◌≡◌, true, false, cond, ◌||◌, ℕ, ◌+◌, ◌-◌, ◌*◌, ◌/◌, ◌≤◌, ◌<◌, length};
ghost use mir.Val.{bool_byte};
ghost use Rattle.spec.specs.Lists.{up_from, keep};
ghost use Rattle.mem_marks.specs.Marks.{is_marked, with_mark, is_pointed, Marks};
ghost use Rattle.mem_tables.specs.Tables.{is_within, count_places};

// Marks number k.
fn add_mark(marks: &mut [u8], k: usize)
    requires { k / 8 < length marks.old }
    ensures { marks.new ≡ with_mark marks.old k }
{
    marks[k / 8] = bits_masks::with_drive(marks[k / 8], k % 8);
}

// Whether number k is marked.
pub fn is_marked(marks: &[u8], k: usize) -> bool
    requires { k / 8 < length marks.now }
    ensures { result ≡ is_marked marks.now k }
{
    bits_masks::has_drive(marks[k / 8], k % 8)
}

// Marks a place that lies from first up to end, counted from first. 1 where it lies at end or above, and is not never written.
fn mark_place(marks: &mut [u8], first: usize, end: usize, q: usize) -> usize
    requires { (first ≤ end) × (end - first ≤ 8 * length marks.old) }
    ensures marks_after { marks.new ≡ cond (is_within first end q) (with_mark marks.old (q - first)) marks.old }
    ensures value { result ≡ bool_byte (is_within end 4294967295 q) }
{
    if q < first {
        return 0;
    }
    if end <= q {
        return (q < 4294967295) as usize;
    }
    add_mark(marks, q - first);
    0
}

// Marks the places of the first n addresses; how many of these have one at end or above.
fn mark_places(addresses: &[u8], n: usize, marks: &mut [u8], first: usize, end: usize) -> usize
    requires { (4 * n ≤ length addresses.now) × (first ≤ end) × (end - first ≤ 8 * length marks.old) }
    ensures by_index { (q : ℕ) → first ≤ q → q < end → is_marked marks.new (q - first) ≡
        (is_pointed addresses.now n q || is_marked marks.old (q - first)) }
    ensures value { result ≡ count_places addresses.now n end 4294967295 }
{
    let mut k = 0;
    for a in 0..n {
        let q = mem_tables::place_at(addresses, a).0 as usize;
        k += mark_place(marks, first, end, q);
    }
    k
}

// 01, Reclaim: marks just the places, from first up to end, that the first n addresses have; how many of these have one at end or above.
pub fn mark_window(addresses: &[u8], n: usize, marks: &mut [u8], first: usize, end: usize) -> usize
    requires { (4 * n ≤ length addresses.now) × (first ≤ end) × (end - first ≤ 8 * length marks.old) }
    ensures marks { Marks addresses.now n marks.new first end }
    ensures value { result ≡ count_places addresses.now n end 4294967295 }
{
    disk_blocks::clear(marks);
    mark_places(addresses, n, marks, first, end)
}

// ---- how many are marked

// Number by number, from lo up to hi.
fn count_few(marks: &[u8], lo: usize, hi: usize) -> usize
    requires { (lo ≤ hi) × (hi ≤ 8 * length marks.now) }
    ensures { (result ≡ length (keep (is_marked marks.now) (up_from lo (hi - lo)))) × (result ≤ hi - lo) }
{
    let mut n = 0;
    for k in lo..hi {
        if is_marked(marks, k) {
            n += 1;
        }
    }
    n
}

// Byte by byte, from byte a up to byte b.
fn count_bytes(marks: &[u8], a: usize, b: usize) -> usize
    requires { (a ≤ b) × (b ≤ length marks.now) × (8 * b < 18446744073709551616) }
    ensures { (result ≡ length (keep (is_marked marks.now) (up_from (8 * a) (8 * b - 8 * a)))) × (result ≤ 8 * b - 8 * a) }
{
    let mut n = 0;
    for i in a..b {
        n += bits_masks::count(marks[i]);
    }
    n
}

// How many numbers from lo up to hi are marked.
pub fn count_marks(marks: &[u8], lo: usize, hi: usize) -> usize
    requires { (lo ≤ hi) × (hi ≤ 8 * length marks.now) × (hi < 4294967296) }
    ensures { (result ≡ length (keep (is_marked marks.now) (up_from lo (hi - lo)))) × (result ≤ hi - lo) }
{
    let a = (lo + 7) / 8;
    let b = hi / 8;
    if b <= a {
        return count_few(marks, lo, hi);
    }
    let head = count_few(marks, lo, 8 * a);
    let rest = count_bytes(marks, a, b);
    let tail = count_few(marks, 8 * b, hi);
    head + rest + tail
}

// ---- the next that is marked

// How far to go on from k, which is not marked: over a byte without marks at once.
fn step_over(marks: &[u8], k: usize, end: usize) -> usize
    requires { (k < end) × (end ≤ 8 * length marks.now) × (end < 4294967296) × (is_marked marks.now k ≡ false) }
    ensures { (0 < result) × (k + result ≤ end) × ((j : ℕ) → k ≤ j → j < k + result → is_marked marks.now j ≡ false) }
{
    if k % 8 != 0 {
        return 1;
    }
    if end < k + 8 {
        return 1;
    }
    if marks[k / 8] != 0 {
        return 1;
    }
    8
}

// The lowest marked number from k up to end; end if there is none.
pub fn next_marked(marks: &[u8], k: usize, end: usize) -> usize
    requires { (k ≤ end) × (end ≤ 8 * length marks.now) × (end < 4294967296) }
    ensures { (k ≤ result) × (result ≤ end) × ((j : ℕ) → k ≤ j → j < result → is_marked marks.now j ≡ false) × (result < end → is_marked marks.now result ≡ true) }
{
    let mut i = k;
    // Stays: a turn goes on by one number or by the rest of a byte without marks, and no range has such steps.
    while i < end {
        if is_marked(marks, i) {
            return i;
        }
        i += step_over(marks, i, end);
    }
    end
}
