ghost use Rattle.std.specs.Prelude.{◌≡◌};
ghost use Rattle.rules.specs.Making.{blank_core};

use crate::record::Record;
use tables::record::Core;

impl Record {
    // A record that was never made: every call but making is refused 9.
    pub fn blank() -> Record
        ensures { result.core ≡ blank_core }
    {
        Record {
            core: Core::default(),
        }
    }
}
