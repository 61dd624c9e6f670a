// The calls of the host, in C: numbers and byte buffers, the state as bytes (01, The array). Reads look at the state's bytes where they lie. Write,
// closing, landing and reclaim take the state by value with its bytes, and what they change is written there. Restart and rebuild make a whole state,
// and encode it. A refusal leaves the bytes.
#![tactic(auto)]

ghost use Rattle.std.specs.Prelude.{◌≡◌, true, false, cond, [], ℕ};
ghost use Rattle.spec.specs.Host.{heard, hears, lending};
ghost use Rattle.spec.specs.Engine.{call_bytes};
ghost use Rattle.spec.specs.Engine.Call.{write, land, close, reclaim, read, fill, restart, rebuild};
ghost use Rattle.spec.specs.Memory.{state_len};
ghost use Rattle.spec.specs.Params.{mk_params, in_range, image_len, pointers_len, offline_len, addresses_len, compact_len, inflight_len};

use spec::{Address, Params, Told};

// The six numbers of an array.
fn params(n: usize, b: usize, z: usize, s: usize, g: usize, l: usize) -> Params
    ensures { result ≡ mk_params n b z s g l }
{
    Params {
        N: n,
        B: b,
        Z: z,
        S: s,
        G: g,
        L: l,
    }
}

// A length that the parameters say; 0 where one is outside its range.
fn length_of<F: FnOnce(Params) -> usize>(p: Params, length: F) -> usize
    requires { in_range p ≡ true → F.pre length p }
    ensures within { in_range p ≡ true → F.post length p result }
    ensures outside { in_range p ≡ false → result ≡ 0 }
{
    if !disk_shape::in_range(p) {
        return 0;
    }
    length(p)
}

// The length of the list of offline zones (02, item 4); 0 where a parameter is outside its range.
#[unsafe(no_mangle)]
pub extern "C" fn sorgizhed_offline_length(
    n: usize,
    b: usize,
    z: usize,
    s: usize,
    g: usize,
    l: usize,
) -> usize
    ensures { result ≡ cond (in_range (mk_params n b z s g l)) (offline_len (mk_params n b z s g l)) 0 }
{
    length_of(params(n, b, z, s, g, l), |p| disk_shape::offline_len(p))
}

// The length of the buffer of the drives; 0 where a parameter is outside its range.
#[unsafe(no_mangle)]
pub extern "C" fn sorgizhed_image_length(
    n: usize,
    b: usize,
    z: usize,
    s: usize,
    g: usize,
    l: usize,
) -> usize
    ensures { result ≡ cond (in_range (mk_params n b z s g l)) (image_len (mk_params n b z s g l)) 0 }
{
    length_of(params(n, b, z, s, g, l), |p| disk_shape::image_len(p))
}

// The length of the buffer of the write pointers; 0 where a parameter is outside its range.
#[unsafe(no_mangle)]
pub extern "C" fn sorgizhed_pointers_length(
    n: usize,
    b: usize,
    z: usize,
    s: usize,
    g: usize,
    l: usize,
) -> usize
    ensures { result ≡ cond (in_range (mk_params n b z s g l)) (pointers_len (mk_params n b z s g l)) 0 }
{
    length_of(params(n, b, z, s, g, l), |p| disk_shape::pointers_len(p))
}

// The length of the buffer of the address table; 0 where a parameter is outside its range.
#[unsafe(no_mangle)]
pub extern "C" fn sorgizhed_addresses_length(
    n: usize,
    b: usize,
    z: usize,
    s: usize,
    g: usize,
    l: usize,
) -> usize
    ensures { result ≡ cond (in_range (mk_params n b z s g l)) (addresses_len (mk_params n b z s g l)) 0 }
{
    length_of(params(n, b, z, s, g, l), |p| disk_shape::addresses_len(p))
}

// The length of the buffer of the compact stripe table; 0 where a parameter is outside its range.
#[unsafe(no_mangle)]
pub extern "C" fn sorgizhed_compact_length(
    n: usize,
    b: usize,
    z: usize,
    s: usize,
    g: usize,
    l: usize,
) -> usize
    ensures { result ≡ cond (in_range (mk_params n b z s g l)) (compact_len (mk_params n b z s g l)) 0 }
{
    length_of(params(n, b, z, s, g, l), |p| disk_shape::compact_len(p))
}

// The length of the buffer of the stripes in flight; 0 where a parameter is outside its range.
#[unsafe(no_mangle)]
pub extern "C" fn sorgizhed_inflight_length(
    n: usize,
    b: usize,
    z: usize,
    s: usize,
    g: usize,
    l: usize,
) -> usize
    ensures { result ≡ cond (in_range (mk_params n b z s g l)) (inflight_len (mk_params n b z s g l)) 0 }
{
    length_of(params(n, b, z, s, g, l), |p| disk_shape::inflight_len(p))
}

// The length of the state's bytes.
#[unsafe(no_mangle)]
pub extern "C" fn sorgizhed_state_length() -> usize
    ensures { result ≡ state_len }
{
    mem_codec::state_len()
}

// A write of the host.
#[unsafe(no_mangle)]
pub extern "C" fn sorgizhed_write(
    n: usize,
    b: usize,
    z: usize,
    s: usize,
    g: usize,
    l: usize,
    offline: &[u8],
    image: &mut [u8],
    pointers: &mut [u8],
    addresses: &mut [u8],
    compact: &mut [u8],
    inflight: &mut [u8],
    state: &mut [u8],
    address: u64,
    block: &[u8],
    count: u64,
) -> Told
    ensures { hears result (lending offline.now image.new pointers.new addresses.new compact.new inflight.new
        state.new) block.now
        ≡ heard (call_bytes (mk_params n b z s g l) (lending offline.now image.old pointers.old addresses.old
        compact.old inflight.old state.old) (write address block.now count)) }
{
    let p = Params {
        N: n,
        B: b,
        Z: z,
        S: s,
        G: g,
        L: l,
    };
    if state.len() != mem_codec::state_len() {
        return api_answers::short_of(disk_shape::in_range(p));
    }
    let before = mem_codec::decode(state);
    let change = call_empty::write(
        p,
        offline,
        image,
        pointers,
        addresses,
        compact,
        inflight,
        before,
        state,
        Address(address),
        block,
        count,
    );
    api_answers::apply(state, change)
}

// The first read of the host: where the block lies in the image.
#[unsafe(no_mangle)]
pub extern "C" fn sorgizhed_read(
    n: usize,
    b: usize,
    z: usize,
    s: usize,
    g: usize,
    l: usize,
    offline: &[u8],
    image: &[u8],
    pointers: &[u8],
    addresses: &[u8],
    compact: &[u8],
    inflight: &[u8],
    state: &[u8],
    address: u64,
) -> Told
    ensures { hears result (lending offline.now image.now pointers.now addresses.now compact.now inflight.now
        state.now) []
        ≡ heard (call_bytes (mk_params n b z s g l) (lending offline.now image.now pointers.now addresses.now
        compact.now inflight.now state.now) (read address)) }
{
    let p = Params {
        N: n,
        B: b,
        Z: z,
        S: s,
        G: g,
        L: l,
    };
    if state.len() != mem_codec::state_len() {
        return api_answers::short_of(disk_shape::in_range(p));
    }
    let answer = call_read::find(
        p,
        offline,
        image,
        pointers,
        addresses,
        compact,
        inflight,
        state,
        Address(address),
    );
    api_answers::told_of(answer)
}

// The second read of the host, on a lent block.
#[unsafe(no_mangle)]
pub extern "C" fn sorgizhed_fill(
    n: usize,
    b: usize,
    z: usize,
    s: usize,
    g: usize,
    l: usize,
    offline: &[u8],
    image: &[u8],
    pointers: &[u8],
    addresses: &[u8],
    compact: &[u8],
    inflight: &[u8],
    state: &[u8],
    address: u64,
    block: &mut [u8],
) -> Told
    ensures { hears result (lending offline.now image.now pointers.now addresses.now compact.now inflight.now
        state.now) block.new
        ≡ heard (call_bytes (mk_params n b z s g l) (lending offline.now image.now pointers.now addresses.now
        compact.now inflight.now state.now) (fill address block.old)) }
{
    let p = Params {
        N: n,
        B: b,
        Z: z,
        S: s,
        G: g,
        L: l,
    };
    if state.len() != mem_codec::state_len() {
        return api_answers::short_of(disk_shape::in_range(p));
    }
    let answer = call_read::fill(
        p,
        offline,
        image,
        pointers,
        addresses,
        compact,
        inflight,
        state,
        Address(address),
        block,
    );
    api_answers::told_of(answer)
}

// A closing of the host: it makes no store, so no count cuts it.
#[unsafe(no_mangle)]
pub extern "C" fn sorgizhed_close(
    n: usize,
    b: usize,
    z: usize,
    s: usize,
    g: usize,
    l: usize,
    offline: &[u8],
    image: &[u8],
    pointers: &[u8],
    addresses: &[u8],
    compact: &[u8],
    inflight: &mut [u8],
    state: &mut [u8],
) -> Told
    ensures { (count : ℕ)
        → hears result (lending offline.now image.now pointers.now addresses.now compact.now inflight.new
        state.new) [] ≡ heard (call_bytes (mk_params n b z s g l)
        (lending offline.now image.now pointers.now addresses.now compact.now inflight.old
        state.old) (close count)) }
{
    let p = Params {
        N: n,
        B: b,
        Z: z,
        S: s,
        G: g,
        L: l,
    };
    if state.len() != mem_codec::state_len() {
        return api_answers::short_of(disk_shape::in_range(p));
    }
    let before = mem_codec::decode(state);
    let change = call_close::close(
        p, offline, image, pointers, addresses, compact, inflight, before, state,
    );
    api_answers::apply(state, change)
}

// A landing of the host.
#[unsafe(no_mangle)]
pub extern "C" fn sorgizhed_land(
    n: usize,
    b: usize,
    z: usize,
    s: usize,
    g: usize,
    l: usize,
    offline: &[u8],
    image: &mut [u8],
    pointers: &mut [u8],
    addresses: &mut [u8],
    compact: &mut [u8],
    inflight: &[u8],
    state: &mut [u8],
    drive: usize,
    stripe: usize,
    count: u64,
) -> Told
    ensures { hears result (lending offline.now image.new pointers.new addresses.new compact.new inflight.now
        state.new) []
        ≡ heard (call_bytes (mk_params n b z s g l) (lending offline.now image.old pointers.old addresses.old
        compact.old inflight.now state.old) (land drive stripe count)) }
{
    let p = Params {
        N: n,
        B: b,
        Z: z,
        S: s,
        G: g,
        L: l,
    };
    if state.len() != mem_codec::state_len() {
        return api_answers::short_of(disk_shape::in_range(p));
    }
    let before = mem_codec::decode(state);
    let change = call_land::land(
        p, offline, image, pointers, addresses, compact, inflight, before, state, drive, stripe,
        count,
    );
    api_answers::apply(state, change)
}

// A reclaim of the host.
#[unsafe(no_mangle)]
pub extern "C" fn sorgizhed_reclaim(
    n: usize,
    b: usize,
    z: usize,
    s: usize,
    g: usize,
    l: usize,
    offline: &[u8],
    image: &mut [u8],
    pointers: &mut [u8],
    addresses: &mut [u8],
    compact: &mut [u8],
    inflight: &mut [u8],
    state: &mut [u8],
    count: u64,
) -> Told
    ensures { hears result (lending offline.now image.new pointers.new addresses.new compact.new inflight.new
        state.new) []
        ≡ heard (call_bytes (mk_params n b z s g l) (lending offline.now image.old pointers.old addresses.old
        compact.old inflight.old state.old) (reclaim count)) }
{
    let p = Params {
        N: n,
        B: b,
        Z: z,
        S: s,
        G: g,
        L: l,
    };
    if state.len() != mem_codec::state_len() {
        return api_answers::short_of(disk_shape::in_range(p));
    }
    let before = mem_codec::decode(state);
    let change = call_reclaim::reclaim(
        p, offline, image, pointers, addresses, compact, inflight, before, state, count,
    );
    api_answers::apply(state, change)
}

// A restart of the host: drive missing is gone; 255 names none.
#[unsafe(no_mangle)]
pub extern "C" fn sorgizhed_restart(
    n: usize,
    b: usize,
    z: usize,
    s: usize,
    g: usize,
    l: usize,
    offline: &[u8],
    image: &mut [u8],
    pointers: &mut [u8],
    addresses: &mut [u8],
    compact: &mut [u8],
    inflight: &[u8],
    state: &mut [u8],
    missing: usize,
    count: u64,
) -> Told
    ensures { hears result (lending offline.now image.new pointers.new addresses.new compact.new inflight.now
        state.new) []
        ≡ heard (call_bytes (mk_params n b z s g l) (lending offline.now image.old pointers.old addresses.old
        compact.old inflight.now state.old) (restart missing count)) }
{
    let p = Params {
        N: n,
        B: b,
        Z: z,
        S: s,
        G: g,
        L: l,
    };
    if state.len() != mem_codec::state_len() {
        return api_answers::short_of(api_answers::good_restart(p, missing));
    }
    let before = mem_state::zero_state();
    let done = call_restart::restart(
        p, offline, image, pointers, addresses, compact, inflight, before, missing, count,
    );
    api_answers::finish(state, done)
}

// A rebuild of the host, of the drive that the last restart named missing.
#[unsafe(no_mangle)]
pub extern "C" fn sorgizhed_rebuild(
    n: usize,
    b: usize,
    z: usize,
    s: usize,
    g: usize,
    l: usize,
    offline: &[u8],
    image: &mut [u8],
    pointers: &mut [u8],
    addresses: &mut [u8],
    compact: &mut [u8],
    inflight: &[u8],
    state: &mut [u8],
    drive: usize,
    count: u64,
) -> Told
    ensures { hears result (lending offline.now image.new pointers.new addresses.new compact.new inflight.now
        state.new) []
        ≡ heard (call_bytes (mk_params n b z s g l) (lending offline.now image.old pointers.old addresses.old
        compact.old inflight.now state.old) (rebuild drive count)) }
{
    let p = Params {
        N: n,
        B: b,
        Z: z,
        S: s,
        G: g,
        L: l,
    };
    if state.len() != mem_codec::state_len() {
        return api_answers::short_of(api_answers::good_rebuild(p, state, drive));
    }
    let before = mem_codec::decode(state);
    let done = call_rebuild::rebuild(
        p, offline, image, pointers, addresses, compact, inflight, before, drive, count,
    );
    api_answers::finish(state, done)
}
