ghost use Rattle.rules.specs.Examples.{WorkedDay};
ghost use Rattle.rules.specs.FurtherExamples.{FurtherDays};

// The worked examples follow from the definitions.
#[tactic(auto, unfolding(rings::specs::Between::between))]
pub fn worked_day_holds()
    ensures { WorkedDay }
{}

// And so do those of heads, the hand, a swing that gives up, and misses.
#[tactic(auto, unfolding(rings::specs::Between::between))]
pub fn further_days_hold()
    ensures { FurtherDays }
{}
