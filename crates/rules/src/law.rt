ghost use Rattle.rules.specs.Examples.{WorkedRun};
ghost use Rattle.rules.specs.RunLaw.{RunLaw};

use keys::key::Key;

// The run law, for every lawful kind of keys and every kind of values.
pub fn run_law_holds<K: Key, V: Copy>()
    ensures { RunLaw V K.Key.order K.Key.digest }
{}

// There are runs: the worked day is one.
#[tactic(auto, using(crate::proofs::InhabitedRun::worked_day_runs))]
pub fn worked_day_runs()
    ensures { WorkedRun }
{}
