use crate::answer::Answer;
use crate::lent::{Lengths, Lent};
use crate::reference::Reference;
use calls::call::{Action, Call};
use calls::fault::IndexFault;
use index::record::Record;
use keys::berth::Berth;

#[derive(Clone, Copy)]
pub enum Deed {
    Make(u8),
    Act(Action<Berth, u32>),
}

// One call, for the index and for the reference.
#[derive(Clone, Copy)]
pub struct Ask {
    pub lengths: Lengths,
    pub session: u8,
    pub deed: Deed,
}

impl Ask {
    // Asks the index.
    pub fn of_index(self, record: &mut Record, lent: &mut Lent) -> Result<Answer, IndexFault> {
        let Ask {
            lengths,
            session,
            deed,
        } = self;
        let heads = &mut lent.heads[0..lengths.heads];
        let items = &mut lent.items[0..lengths.items];
        let requests = &mut lent.requests[0..lengths.requests];
        match deed {
            Deed::Make(bits) => {
                record.make(heads, items, requests, bits)?;
                Ok(Answer::Made)
            }
            Deed::Act(action) => {
                let call = Call { session, action };
                Ok(Answer::Replied(record.call(heads, items, requests, call)?))
            }
        }
    }

    // Asks the reference.
    pub fn of_reference(self, reference: &mut Reference) -> Result<Answer, IndexFault> {
        match self.deed {
            Deed::Make(bits) => {
                reference.make(self.lengths, bits)?;
                Ok(Answer::Made)
            }
            Deed::Act(action) => {
                let reply = reference.act(self.lengths, self.session, action)?;
                Ok(Answer::Replied(reply))
            }
        }
    }
}
