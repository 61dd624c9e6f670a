// The drives as a call is lent them (01, The array; 02, item 4).
#![tactic(auto)]

ghost use Rattle.std.specs.Prelude.{◌≡◌, true, length};
ghost use Rattle.spec.specs.Drives.{mk_disk};
ghost use Rattle.spec.specs.Params.{in_range, offline_len};
ghost use Rattle.law_views.specs.Views.{Whole};

use spec::Params;

// Parameters in range; the bytes of all drives, their write pointers and the list of offline zones, of the lengths that these say.
#[derive(Clone, Copy)]
pub struct Drives<'a> {
    pub p: Params,
    pub image: &'a [u8],
    pub pointers: &'a [u8],
    pub offline: &'a [u8],
    pub ghost sound: { in_range p ≡ true },
    pub ghost whole: { Whole p (mk_disk image.now pointers.now) },
    pub ghost listed: { length offline.now ≡ offline_len p },
}
