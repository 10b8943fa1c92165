use crate::ask::Ask;
use crate::lent::Lent;
use crate::reference::Reference;
use crate::tally::Tally;
use index::record::Record;

// The index and the reference, each with tables of its own.
#[derive(Drop)]
pub struct Trial {
    record: Record,
    pub lent: Lent,
    pub reference: Reference,
}

impl Trial {
    // Both are blank, over the same tables.
    pub fn new(tables: Lent) -> Trial {
        Trial {
            record: Record::blank(),
            lent: tables,
            reference: Reference::blank(tables),
        }
    }

    // Makes one call on both. They are to say the same and to leave the same tables, and a refused
    // call is to leave them as they were.
    pub fn ask(&mut self, ask: Ask, tally: &mut Tally) {
        let tables = self.lent;
        let before = self.reference.any_seat(ask.session);
        let answer = ask.of_index(&mut self.record, &mut self.lent);
        let expected = ask.of_reference(&mut self.reference);
        let after = self.reference.any_seat(ask.session);
        if answer != expected || !self.lent.same(&self.reference.tables) {
            tally.differ();
        }
        if answer.is_err() && !self.lent.same(&tables) {
            tally.differ();
        }
        tally.count(answer, before, after);
    }
}
