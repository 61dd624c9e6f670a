// The address table: places of 4 bytes (01, The array), and scans of it (01, Reclaim).
#![tactic(auto)]

ghost use Rattle.std.specs.Prelude.{◌≡◌, ◌+◌, ◌-◌, ◌*◌, ◌≤◌, length};
ghost use mir.Val.{bool_byte};
ghost use Rattle.spec.specs.Memory.{place_at_of, set_place};
ghost use Rattle.mem_tables.specs.Tables.{is_within, count_places, find_place};

use spec::Place;

// The place of address a.
pub fn place_at(table: &[u8], a: usize) -> Place
    requires { 4 * a + 4 ≤ length table.now }
    ensures { result.0 ≡ place_at_of table.now a }
{
    Place(bits_be::read_be32(table, 4 * a))
}

// Puts place q at address a.
pub fn set_place(table: &mut [u8], a: usize, q: Place)
    requires { 4 * a + 4 ≤ length table.old }
    ensures { table.new ≡ set_place table.old a q.0 }
{
    bits_be::write_be32(table, 4 * a, q.0);
}

// 1 where q lies less than span above lo, without a branch.
fn is_near(q: u32, lo: u32, hi: u32, span: u32) -> usize
    requires { span ≡ hi - lo }
    ensures { result ≡ bool_byte (is_within lo hi q) }
{
    (std::num::wrapping_sub_u32(q, lo) < span) as usize
}

// How many of the first n addresses have a place from lo up to hi.
pub fn count_places(table: &[u8], n: usize, lo: Place, hi: Place) -> usize
    requires { 4 * n ≤ length table.now }
    ensures { result ≡ count_places table.now n lo.0 hi.0 }
{
    let first = lo.0;
    let end = hi.0;
    let span = end.saturating_sub(first);
    let mut k = 0;
    for a in 0..n {
        k += is_near(bits_be::read_be32(table, 4 * a), first, end, span);
    }
    k
}

// The lowest of the first n addresses whose place is q; n if there is none.
// Stays: `find_place` of specs/ gives that number, and so does its one caller, the C function `leaf_find`.
pub fn find_place(table: &[u8], n: usize, q: Place) -> usize
    requires { 4 * n ≤ length table.now }
    ensures { result ≡ find_place table.now n q.0 }
{
    let wanted = q.0;
    for a in 0..n {
        if bits_be::read_be32(table, 4 * a) == wanted {
            return a;
        }
    }
    n
}
