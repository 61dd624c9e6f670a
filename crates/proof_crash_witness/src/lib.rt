// A history that meets every premise of demand 3 is in specs/, and one after which a write meets 7 and 8 together (02, item 3), with functions of no effect whose contracts say so:
// demand 3 and item 3 are not empty.
#![tactic(auto)]

ghost use Rattle.proof_crash_witness.specs.Witness.{Witness};
ghost use Rattle.proof_crash_witness.specs.Crowded.{Crowded};

// Each event is allowed, answers as the table says, and each finished restart reads as the table says.
pub fn witness()
    ensures { Witness }
{}

// 02, item 3: the write behind the history was refused 7, and is refused 8.
pub fn crowded()
    ensures { Crowded }
{}
