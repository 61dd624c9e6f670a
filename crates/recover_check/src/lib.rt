// Refusal 9 of restart and rebuild, and what is counted on the way (01, Refusals; Restart, 4; 02, item 4).
#![tactic(auto)]

ghost use Rattle.disk_drives.specs.Viewed.{viewed};
ghost use Rattle.std.specs.Prelude.{◌≡◌, true, false, ◌+◌, ◌<◌, leb, length};
ghost use Rattle.spec.specs.Drives.{sealed_in};
ghost use Rattle.spec.specs.Faults.{serial_twice};
ghost use Rattle.spec.specs.Segments.{remaining, segment_of, segments, unsealed};
ghost use Rattle.law_drives.specs.Members.{In};
ghost use Rattle.law_drives.specs.Segs.{Here};
ghost use Rattle.disk_gather.specs.Flags.{Keeps, Serials, FlagsRows};
ghost use Rattle.recover_headers.specs.Names.{NameCounts};
ghost use Rattle.recover_check.specs.Faults.{Examined, Arrays, front_fault, faulty, ExamSays, added};

use disk_drives::Drives;
use recover_survey::Tally;
use spec::{Params, Seg, Serial};

// The most zones of all drives, and of one.
const ZONES: usize = 8 * 1024;

const MOST: usize = 1024;

// zone: the lowest bad one, or Z; loose: uncounted stripes of all segments; and of the unsealed segment, if there is one, else 0:
// counted: how many stripes count; top: the last of them + 1; part: its uncounted ones.
#[derive(Clone, Copy)]
pub struct Exam {
    pub zone: usize,
    pub loose: u64,
    pub counted: usize,
    pub top: usize,
    pub part: usize,
}

// 01, Refusals, 9: a remaining segment but for its records; repeated: a present drive bears its serial twice; many: two or more segments are unsealed.
fn segment_fault(
    drives: &Drives<'_>,
    gone: u8,
    counts: &[u8],
    segment: Seg,
    serial: Serial,
    repeated: bool,
    full: bool,
    many: bool,
) -> bool
    requires here { Here drives.now.p gone }
    requires name_counts { NameCounts drives.now.p (viewed drives.now) gone counts.now
        × In segment (remaining drives.now.p (viewed drives.now) gone)
        × (serial.0 ≡ (segment_of drives.now.p (viewed drives.now) gone segment).serial)
        × (repeated
        ≡ serial_twice drives.now.p (viewed drives.now) gone (segment_of drives.now.p (viewed drives.now) gone segment)) }
    requires full_value { (full ≡ sealed_in drives.now.p (viewed drives.now) gone segment)
        × (many ≡ leb 2 (length (unsealed (segments drives.now.p (viewed drives.now) gone)))) }
    ensures { result
        ≡ front_fault drives.now.p (viewed drives.now) gone
        (segments drives.now.p (viewed drives.now) gone)
        (segment_of drives.now.p (viewed drives.now) gone segment) }
{
    if recover_headers::front_fault(
        drives.p,
        drives.image,
        drives.offline,
        gone,
        counts,
        segment,
        serial,
        repeated,
    ) {
        return true;
    }
    if full {
        return false;
    }
    if many {
        return true;
    }
    recover_headers::footer_fault(drives.p, drives.image, drives.pointers, gone, segment)
}

// The zone is bad.
fn exam_bad(e: Exam, zone: usize) -> Exam
    ensures { result.zone ≡ zone }
{
    Exam {
        zone,
        loose: e.loose,
        counted: e.counted,
        top: e.top,
        part: e.part,
    }
}

// The segment is in order: its uncounted stripes are added, and an unsealed one's tally.
fn exam_good(e: Exam, full: bool, t: Tally) -> Exam
    requires loose_bound { (e.loose < 4294967296) × (e.counted < 4294967296) × (e.top < 4294967296) × (e.part < 4294967296) }
    requires loose_bound_2 { (t.loose < 4294967296) × (t.counted < 4294967296) × (t.top < 4294967296) }
    ensures { result ≡ added full e t }
{
    let loose = e.loose + t.loose as u64;
    if full {
        return Exam {
            zone: e.zone,
            loose,
            counted: e.counted,
            top: e.top,
            part: e.part,
        };
    }
    Exam {
        zone: e.zone,
        loose,
        counted: e.counted + t.counted,
        top: e.top + t.top,
        part: e.part + t.loose,
    }
}

// One zone of the lowest present drive; where no segment remains nothing is looked at; at is room for the index of a group.
fn exam_segment(
    drives: &Drives<'_>,
    gone: u8,
    kept: &[bool],
    serials: &[u64],
    rows: &[u32],
    repeats: &[bool],
    counts: &[u8],
    z: usize,
    many: bool,
    at: &mut [u16],
    e: Exam,
) -> Exam
    requires arrays { Arrays drives.now.p (viewed drives.now) gone kept.now serials.now rows.now repeats.now counts.now }
    requires z_lt_z { (z < drives.now.p.Z)
        × (many ≡ leb 2 (length (unsealed (segments drives.now.p (viewed drives.now) gone))))
        × ExamSays drives.now.p (viewed drives.now) gone z e
        × (length at.old ≡ 2048) }
    ensures zone_value { faulty drives.now.p (viewed drives.now) gone z ≡ true → result.zone ≡ z }
    ensures exam_says { faulty drives.now.p (viewed drives.now) gone z ≡ false
        → ExamSays drives.now.p (viewed drives.now) gone (z + 1) result }
{
    if !kept[z] {
        return e;
    }
    let segment = disk_gather::row(rows, z);
    let serial = Serial(serials[z]);
    let full = disk_zones::is_sealed(drives.p, drives.pointers, gone, segment);
    if segment_fault(
        drives, gone, counts, segment, serial, repeats[z], full, many,
    ) {
        return exam_bad(e, z);
    }
    let t = recover_survey::survey(
        drives.p,
        drives.image,
        drives.pointers,
        gone,
        segment,
        full,
        at,
    );
    if t.bad {
        return exam_bad(e, z);
    }
    exam_good(e, full, t)
}

// All zones of the lowest present drive.
fn exam_segments(
    drives: &Drives<'_>,
    gone: u8,
    kept: &[bool],
    serials: &[u64],
    rows: &[u32],
    repeats: &[bool],
    counts: &[u8],
    many: bool,
    at: &mut [u16],
) -> Exam
    requires arrays { Arrays drives.now.p (viewed drives.now) gone kept.now serials.now rows.now repeats.now counts.now }
    requires many_value { (many ≡ leb 2 (length (unsealed (segments drives.now.p (viewed drives.now) gone)))) × (length at.old ≡ 2048) }
    ensures { Examined drives.now.p (viewed drives.now) gone
        (segments drives.now.p (viewed drives.now) gone) result }
{
    let mut e = Exam {
        zone: drives.p.Z,
        loose: 0,
        counted: 0,
        top: 0,
        part: 0,
    };
    for z in 0..drives.p.Z {
        e = exam_segment(
            drives, gone, kept, serials, rows, repeats, counts, z, many, at, e,
        );
        if e.zone < drives.p.Z {
            return e;
        }
    }
    e
}

// 01, Refusals, 9; 02, item 4: the lowest zone on the lowest present drive of a remaining segment with a fault, with what is counted on the way. The names in
// headers are counted, and the serials that a drive bears twice are looked for, once for all segments; the room for the index of a group is cleared once.
pub fn examine(drives: &Drives<'_>, gone: u8, kept: &[bool], serials: &[u64], rows: &[u32]) -> Exam
    requires here { Here drives.now.p gone }
    requires keeps { Keeps drives.now.p (viewed drives.now) gone kept.now
        × Serials drives.now.p (viewed drives.now) gone serials.now
        × FlagsRows drives.now.p (viewed drives.now) gone rows.now }
    ensures { Examined drives.now.p (viewed drives.now) gone
        (segments drives.now.p (viewed drives.now) gone) result }
{
    let many = 2 <= recover_segments::unsealed_count(drives.p, drives.pointers, gone, kept, rows);
    let mut repeats = [false; MOST];
    disk_gather::repeats(drives, gone, &mut repeats);
    let mut counts = [0u8; ZONES];
    recover_headers::name_counts(drives.p, drives.image, gone, kept, &mut counts);
    let mut at = [0u16; 2048];
    exam_segments(
        drives, gone, kept, serials, rows, &repeats, &counts, many, &mut at,
    )
}
