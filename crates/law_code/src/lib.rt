// Laws of the code of a stripe (specs/): what encode makes of the data, and what decode gives back of what is lost. There is no code here.
#![tactic(auto)]

ghost use Rattle.law_code.specs.Survives.{Survives};

// 01, Read and Rebuild: whichever drives are missing, as many as there are parities or fewer, the others give back what they had.
pub fn survives()
    ensures { Survives }
{}
