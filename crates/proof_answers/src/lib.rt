// Demand 1, the NVMe zone rules and that offline zones take no part (02, item 4), proved of the definitions for all parameters, lent bytes and calls (specs/). There is no code here.
#![tactic(auto)]

ghost use Rattle.spec_demands.specs.Answering.{Demand1};
ghost use Rattle.spec_demands.specs.Rules.{ZoneRules, OfflineApart};

// Demand 1.
pub fn demand_one()
    ensures { Demand1 }
{}

// The NVMe zone rules, of demand 2.
pub fn zone_rules()
    ensures { ZoneRules }
{}

// 02, item 4: drives that differ in offline zones alone give the same answers, the same buffers and the same stores.
pub fn offline_apart()
    ensures { OfflineApart }
{}
