// What the records of a segment say: refusal 9, and how many stripes count (01, Refusals; Restart, 3).
#![tactic(auto)]

ghost use Rattle.std.specs.Prelude.{◌≡◌, true, false, ◌&&◌, List, ℕ, ◌+◌, ◌%◌, ◌≤◌, ◌<◌, length};
ghost use Rattle.spec.specs.Drives.{view_of, mk_disk, sealed_in};
ghost use Rattle.spec.specs.Layout.{is_data};
ghost use Rattle.spec.specs.Lists.{any, is_in};
ghost use Rattle.spec.specs.Params.{in_range, image_len, absent};
ghost use Rattle.spec.specs.Segments.{segment_of, counts};
ghost use Rattle.recover_groups.specs.Groups.{group_len, group_fault, recs_fault, segment_in, Entered, AllEntered};
ghost use Rattle.law_views.specs.Views.{Whole};
ghost use Rattle.recover_survey.specs.Stripes.{lost_bad, worse, Tallied, Shown};
ghost use Rattle.recover_survey.specs.Tops.{Surveyed};
ghost use Rattle.law_basic.specs.Segs.{ZonesLow};

use recover_groups::Group;
use spec::{Params, Seg};

// bad: a stripe number or an address is bad; counted: how many stripes count; top: the last of them + 1; loose: stripes with some chunk that don't count.
#[derive(Clone, Copy)]
pub struct Tally {
    pub bad: bool,
    pub counted: usize,
    pub top: usize,
    pub loose: usize,
}

// ---- decoded addresses

// A missing drive has data of the stripe.
fn lost_data(p: Params, gone: u8, drive: usize, s: usize) -> bool
    requires { in_range p ≡ true }
    ensures { result ≡ (is_in gone drive && is_data p s drive) }
{
    if !bits_masks::has_drive(gone, drive) {
        return false;
    }
    disk_shape::is_data(p, s, drive)
}

// Some missing drive has data of the stripe.
fn any_lost_data(p: Params, gone: u8, s: usize) -> bool
    requires { in_range p ≡ true }
    ensures { result ≡ any (is_data p s) (absent p gone) }
{
    if gone == 0 {
        return false;
    }
    (0..p.N).any(|d| lost_data(p, gone, d, s))
}

// A drive is missing, or the stripe has an entry of it, which lies in the group.
fn is_entered(p: Params, w: Group, at: &[u16], drive: usize, k: usize) -> bool
    requires p_value { in_range p ≡ true }
    requires at_len { (length at.now ≡ 2048) × (w.base < p.S) × (drive < p.N) × (k < 256) }
    ensures entered { result ≡ true → is_in w.gone drive ≡ false → Entered p w.base at.now drive k }
    ensures value { (is_in w.gone drive ≡ false → Entered p w.base at.now drive k) → result ≡ true }
{
    if bits_masks::has_drive(w.gone, drive) {
        return true;
    }
    let j = 256 * drive + k;
    let o = at[j] as usize;
    if o == 0 {
        return false;
    }
    o <= recover_groups::group_len(p, w.base)
}

// The stripe has an entry of every present drive.
fn is_all_entered(p: Params, w: Group, at: &[u16], k: usize) -> bool
    requires p_value { in_range p ≡ true }
    requires at_len { (length at.now ≡ 2048) × (w.base < p.S) × (k < 256) }
    ensures all_entered { result ≡ true → AllEntered p w.gone w.base at.now k }
    ensures value { AllEntered p w.gone w.base at.now k → result ≡ true }
{
    for d in 0..p.N {
        if !is_entered(p, w, at, d, k) {
            return false;
        }
    }
    true
}

// 01, Refusals, 9: a decoded address of counted stripe k of the group is bad.
fn lost_bad(p: Params, image: &[u8], w: Group, at: &[u16], k: usize) -> bool
    requires p_value { in_range p ≡ true }
    requires image_len { (length image.now ≡ image_len p) × (length at.now ≡ 2048) × ZonesLow p w.gone w.seg × (w.base < p.S) × (k < group_len p w.base) }
    ensures { (off : List ℕ) (ps : List ℕ)
        → Shown p off image.now ps w at.now
        → recs_fault p w.gone (segment_in p off image.now ps w) ≡ false
        → counts p w.gone (segment_in p off image.now ps w) (w.base + k) ≡ true
        → result ≡ lost_bad p w.gone (segment_in p off image.now ps w) (w.base + k) }
{
    if !any_lost_data(p, w.gone, w.base + k) {
        return false;
    }
    if !is_all_entered(p, w, at, k) {
        return true;
    }
    recover_groups::bad_rec(p, recover_groups::lost_rec(p, image, w, at, 0, k))
}

// ---- the stripes of a segment

// The tally of a segment that is bad.
fn bad_tally(t: Tally) -> Tally
    ensures { result ≡ worse t }
{
    Tally {
        bad: true,
        counted: t.counted,
        top: t.top,
        loose: t.loose,
    }
}

// One stripe: number k of the group.
fn survey_stripe(p: Params, image: &[u8], w: Group, at: &[u16], k: usize, t: Tally) -> Tally
    requires p_value { in_range p ≡ true }
    requires image_len { (length image.now ≡ image_len p) × (length at.now ≡ 2048) × ZonesLow p w.gone w.seg × (w.base < p.S) × (k < group_len p w.base) }
    requires counted_bound { (t.counted ≤ w.base + k) × (t.loose ≤ w.base + k) }
    ensures counted_bound_2 { (result.counted ≤ w.base + k + 1) × (result.loose ≤ w.base + k + 1) × (result.bad ≡ false → t.bad ≡ false) }
    ensures by_index { (off : List ℕ) (ps : List ℕ)
        → Shown p off image.now ps w at.now
        → Tallied p w.gone (segment_in p off image.now ps w) (w.base + k) t
        → Tallied p w.gone (segment_in p off image.now ps w) (w.base + k + 1) result }
{
    if recover_groups::counts(p, w.gone, at, k) {
        if lost_bad(p, image, w, at, k) {
            return bad_tally(t);
        }
        return Tally {
            bad: t.bad,
            counted: t.counted + 1,
            top: w.base + k + 1,
            loose: t.loose,
        };
    }
    if recover_groups::chunks(p, at, k) == 0 {
        return t;
    }
    Tally {
        bad: t.bad,
        counted: t.counted,
        top: t.top,
        loose: t.loose + 1,
    }
}

// The stripes of one group.
fn survey_stripes(p: Params, image: &[u8], w: Group, at: &[u16], t: Tally) -> Tally
    requires p_value { in_range p ≡ true }
    requires image_len { (length image.now ≡ image_len p) × (length at.now ≡ 2048) × ZonesLow p w.gone w.seg × (w.base < p.S) }
    requires counted_le_base { (t.counted ≤ w.base) × (t.loose ≤ w.base) }
    ensures counted_bound { (result.counted ≤ w.base + group_len p w.base) × (result.loose ≤ w.base + group_len p w.base) × (result.bad ≡ false → t.bad ≡ false) }
    ensures by_index { (off : List ℕ) (ps : List ℕ)
        → Shown p off image.now ps w at.now
        → Tallied p w.gone (segment_in p off image.now ps w) w.base t
        → Tallied p w.gone (segment_in p off image.now ps w) (w.base + group_len p w.base) result }
{
    let len = recover_groups::group_len(p, w.base);
    let mut next = t;
    for k in 0..len {
        next = survey_stripe(p, image, w, at, k, next);
    }
    next
}

// One group.
fn survey_group(
    p: Params,
    image: &[u8],
    pointers: &[u8],
    w: Group,
    at: &mut [u16],
    t: Tally,
) -> Tally
    requires p_value { in_range p ≡ true }
    requires whole { Whole p (mk_disk image.now pointers.now) }
    requires at_len { (length at.old ≡ 2048) × ZonesLow p w.gone w.seg × (w.base < p.S) × (w.base % p.G ≡ 0) }
    requires counted_le_base { (t.counted ≤ w.base) × (t.loose ≤ w.base) }
    ensures counted_bound { (result.counted ≤ w.base + group_len p w.base) × (result.loose ≤ w.base + group_len p w.base) }
    ensures by_index { (off : List ℕ)
        → w.full ≡ sealed_in p (view_of p off image.now pointers.now) w.gone w.seg
        → result.bad ≡ false
        → (t.bad ≡ false) × (group_fault p w.gone (segment_in p off image.now pointers.now w) w.base ≡ false) }
    ensures by_index_2 { (off : List ℕ)
        → w.full ≡ sealed_in p (view_of p off image.now pointers.now) w.gone w.seg
        → Tallied p w.gone (segment_in p off image.now pointers.now w) w.base t
        → Tallied p w.gone (segment_in p off image.now pointers.now w) (w.base + group_len p w.base) result }
{
    if !recover_groups::index_group(p, image, pointers, w, at) {
        return bad_tally(t);
    }
    survey_stripes(p, image, w, at, t)
}

// 01, Refusals, 9, and Restart, 3: the records of a segment; full: it is sealed; at is room for the index of a group.
pub fn survey(
    p: Params,
    image: &[u8],
    pointers: &[u8],
    gone: u8,
    seg: Seg,
    full: bool,
    at: &mut [u16],
) -> Tally
    requires p_value { in_range p ≡ true }
    requires whole { Whole p (mk_disk image.now pointers.now) }
    requires at_len { (length at.old ≡ 2048) × ZonesLow p gone seg }
    ensures { (off : List ℕ)
        → full ≡ sealed_in p (view_of p off image.now pointers.now) gone seg
        → Surveyed p gone (segment_of p (view_of p off image.now pointers.now) gone seg) result }
{
    let mut t = Tally {
        bad: false,
        counted: 0,
        top: 0,
        loose: 0,
    };
    for base in (0..p.S).step_by(p.G) {
        let w = Group {
            gone,
            seg,
            full,
            base,
        };
        t = survey_group(p, image, pointers, w, at, t);
    }
    t
}
