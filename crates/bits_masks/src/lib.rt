// Masks of drives and of data positions (01, Landing: the landed set is a mask).
#![tactic(auto)]

ghost use Rattle.std.specs.Prelude.{◌≡◌, ◌≤◌, eqb};
ghost use Rattle.std.specs.Int.Bits.{bit_or};
ghost use Rattle.std.specs.Int.Count.{ones};
ghost use Rattle.spec.specs.Lists.{only, is_in};

// The mask of a drive alone; none where the number is above 7.
pub fn only_drive(drive: usize) -> u8
    ensures { result ≡ only drive }
{
    if 8 <= drive {
        return 0;
    }
    1 << drive
}

// The mask with one more drive.
pub fn with_drive(mask: u8, drive: usize) -> u8
    ensures { result ≡ bit_or mask (only drive) }
{
    mask | only_drive(drive)
}

// Whether the drive is in the mask.
pub fn has_drive(mask: u8, drive: usize) -> bool
    ensures { result ≡ is_in mask drive }
{
    if 8 <= drive {
        return false;
    }
    (mask >> drive) % 2 == 1
}

// How many drives are in the mask.
pub fn count(mask: u8) -> usize
    ensures { (result ≡ ones mask) × (result ≤ 8) }
{
    mask.count_ones() as usize
}

// Whether as many drives are in the mask as there are drives.
pub fn is_complete(mask: u8, drives: usize) -> bool
    ensures { result ≡ eqb (ones mask) drives }
{
    count(mask) == drives
}
