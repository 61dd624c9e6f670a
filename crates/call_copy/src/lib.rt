// A live block copied into the filling stripe (01, Reclaim).
#![tactic(auto)]

ghost use Rattle.std.specs.Prelude.{◌≡◌, true, false, [], ◌*◌, ◌≤◌, ◌<◌, length};
ghost use Rattle.call_copy.specs.Copying.{sent_plan, CopyReady};
ghost use Rattle.spec.specs.Bytes.{part};
ghost use Rattle.spec.specs.Calls.{outcome};
ghost use Rattle.spec.specs.Calls.Verdict.{due};
ghost use Rattle.spec.specs.Drives.{view_of, mk_disk, store_disk};
ghost use Rattle.spec.specs.Memory.{mk_memory, state_len, state_of};
ghost use Rattle.spec.specs.Params.{in_range, capacity, image_len, place_byte};
ghost use Rattle.spec.specs.Reclaim.{copy_plan};
ghost use Rattle.spec.specs.Segments.{place_segment};
ghost use Rattle.law_basic.specs.Segs.{ZonesLow};
ghost use Rattle.call_filling.specs.Aims.{aim_of};
ghost use Rattle.mem_rows.specs.Rows.{front_of, after_change};
ghost use Rattle.call_reclaim_victim.specs.Waiting.{is_odd};

use call_filling::Aim;
use mem_rows::{Change, Front};
use spec::{Address, Answer, Params, Place, Seg, Stamp};

// 01, Reclaim: the block goes into the filling stripe with its old stamp, once a segment is open for it. f, a: the front of the state and where the block goes.
fn send_copy(
    p: Params,
    image: &mut [u8],
    pointers: &mut [u8],
    offline: &[u8],
    addresses: &mut [u8],
    compact: &mut [u8],
    inflight: &mut [u8],
    bytes: &[u8],
    f: Front,
    a: Aim,
    address: Address,
    stamp: Stamp,
    block: &[u8],
    count: u64,
) -> Change
    requires copy_ready { CopyReady p offline.now (mk_disk image.old pointers.old) (mk_memory (state_of bytes.now) addresses.old compact.old inflight.old) }
    requires f_value { (f ≡ front_of (state_of bytes.now)) × (a ≡ aim_of p (state_of bytes.now)) × (length bytes.now ≡ state_len) × (length block.now ≡ p.B) }
    ensures { after_change (state_of bytes.now) result image.new pointers.new addresses.new compact.new inflight.new []
        ≡ outcome p (store_disk p) count (mk_disk image.old pointers.old)
        (mk_memory (state_of bytes.now) addresses.old compact.old inflight.old) []
        (due (sent_plan p (view_of p offline.now image.old pointers.old)
        (mk_memory (state_of bytes.now) addresses.old compact.old inflight.old) address.0 stamp.0 block.now)) }
{
    let Ok(o) = call_filling::open(p, image, pointers, offline, f, a, count) else {
        return call_filling::cut(addresses, compact, f);
    };
    let row = mem_codec::row_at(bytes, a.slot);
    let w = call_filling::send(p, inflight, row, a, o.next, address, stamp, false, block);
    let last = w.row;
    let serial = o.serial;
    let old = f.stamp;
    Change {
        answer: Answer::Copied(stamp, last.number as u64, w.drive as u64),
        stamp: old,
        serial,
        opened: o.opened,
        next: w.next,
        slot: a.slot,
        row: last,
    }
}

// The block at place q, at the front of a buffer.
fn take_block(p: Params, image: &[u8], q: Place, block: &mut [u8])
    requires p_value { in_range p ≡ true }
    requires image_len { (length image.now ≡ image_len p) × (q.0 < p.N * p.Z * capacity p) × (p.B ≤ length block.old) }
    ensures { part 0 p.B block.new ≡ part (place_byte p q.0) p.B image.now }
{
    let at = disk_shape::place_byte(p, q);
    let end = at + p.B;
    disk_blocks::copy_part(block, 0, &image[at..end]);
}

// 01, Reclaim: the copy of the block at place q, which lies in a segment. It is read before a segment is opened, so headers cannot touch it.
pub fn copy_block(
    p: Params,
    image: &mut [u8],
    pointers: &mut [u8],
    offline: &[u8],
    addresses: &mut [u8],
    compact: &mut [u8],
    inflight: &mut [u8],
    bytes: &[u8],
    f: Front,
    a: Aim,
    segment: Seg,
    q: Place,
    count: u64,
) -> Change
    requires copy_ready { CopyReady p offline.now (mk_disk image.old pointers.old) (mk_memory (state_of bytes.now) addresses.old compact.old inflight.old) }
    requires f_value { (f ≡ front_of (state_of bytes.now)) × (a ≡ aim_of p (state_of bytes.now)) × (length bytes.now ≡ state_len) }
    requires q_bound { (q.0 < p.N * p.Z * capacity p) × (is_odd p q.0 ≡ false) }
    requires q_value { (place_segment p (view_of p offline.now image.old pointers.old) 0 q.0 ≡ segment) × ZonesLow p 0 segment }
    ensures { after_change (state_of bytes.now) result image.new pointers.new addresses.new compact.new inflight.new []
        ≡ outcome p (store_disk p) count (mk_disk image.old pointers.old)
        (mk_memory (state_of bytes.now) addresses.old compact.old inflight.old) []
        (due (copy_plan p (view_of p offline.now image.old pointers.old)
        (mk_memory (state_of bytes.now) addresses.old compact.old inflight.old) q.0)) }
{
    let r = disk_stored::place_record(p, image, pointers, 0, segment, q);
    let address = r.address;
    let stamp = r.stamp;
    let mut block = [0u8; 4096];
    take_block(p, image, q, &mut block);
    let b = p.B;
    send_copy(
        p,
        image,
        pointers,
        offline,
        addresses,
        compact,
        inflight,
        bytes,
        f,
        a,
        address,
        stamp,
        &block[..b],
        count,
    )
}
