// The list sheet: up to 512 marks in a list, where the place of a struck mark is used again.
#![tactic(auto)]

ghost use Rattle.std.specs.Prelude.{◌≡◌, ◌≤◌, length};
ghost use Rattle.sheet.specs.Meanings.{pairs, empty};
ghost use Rattle.sheet.specs.Kept.{present_states, Irreflexive, PresentFrom, PresentTo};
ghost use Rattle.listsheet.specs.Places.{list_marks, Once, list_meaning};
ghost use Rattle.listsheet.specs.ListLaws.{list_lawful};

use crate::marks::MarkList;
use model::decline::Decline;
use sheet::meaning::Sheet;
use sheet::present::Present;
use sheet::state::State;

mod marks;
#[cfg(test)]
mod tests;

// Not one make over either table: a bit sheet is never full and counts its marks, a list is full and knows them, and two of the five
// invariants are the list's alone. A trait that told a table's reads, writes and room would be longer than the make that it saved.
#[derive(Drop)]
pub struct ListSheet {
    present: Present,
    table: MarkList,
    // no more marks than places: the type of the list holds to that, and tells it to its methods alone
    ghost few: { length table.marks.items ≤ 512 },
    // no pair twice
    ghost once: { Once table.marks.items },
    // no mark of a record to itself
    ghost irreflexive: { Irreflexive (list_marks table.marks.items) },
    // nor of an absent record
    ghost from: { PresentFrom present.set (list_marks table.marks.items) },
    // nor to one
    ghost to: { PresentTo present.set (list_marks table.marks.items) },
}

impl ListSheet {
    // A sheet on which every number is absent.
    #[tactic(auto, using(crate::proofs::Changes::none_empty))]
    pub fn new() -> ListSheet
        ensures { list_meaning result.present.set result.table.marks.items ≡ empty 512 }
    {
        ListSheet {
            present: Present::none(),
            table: MarkList::empty(),
        }
    }

    // The marks in the list: as many as marked pairs.
    fn count(&self) -> u16
        ensures used { result ≡ length self.now.table.marks.items }
        ensures pairs { result ≡ pairs (list_marks self.now.table.marks.items) }
    {
        self.table.len()
    }
}

impl Sheet for ListSheet {
    ghost states = { λ s. present_states s.present.set };

    ghost marks = { λ s. list_marks s.table.marks.items };

    ghost held = { λ s. length s.table.marks.items };

    ghost capacity = { λ _. 512 };

    ghost lawful = { λ s. list_lawful s.present.set s.table.marks.items s.few s.once s.irreflexive s.from s.to };

    fn state(&self, u: u8) -> State {
        self.present.state(u)
    }

    fn marked(&self, u: u8, v: u8) -> bool {
        self.table.has(u, v)
    }

    fn held(&self) -> u16 {
        self.count()
    }

    fn capacity(&self) -> u16 {
        512
    }

    #[tactic(auto, using(sheet::proofs::Keeping::enter_called))]
    fn enter(&mut self, u: u8) -> Result<(), Decline> {
        self.present.enter(u)
    }

    fn mark(&mut self, u: u8, v: u8) -> Result<(), Decline> {
        self.present.check_pair(u, v)?;
        if self.table.has(u, v) {
            return Err(Decline::AlreadyMarked);
        }
        if self.table.full() {
            return Err(Decline::SheetFull);
        }
        self.table.push(u, v);
        Ok(())
    }

    #[tactic(auto, using(crate::proofs::Changes::found_nowhere))]
    fn strike(&mut self, u: u8, v: u8) -> Result<(), Decline> {
        self.present.check_pair(u, v)?;
        let Some(k) = self.table.find(u, v) else {
            return Err(Decline::NotMarked);
        };
        self.table.remove(k);
        Ok(())
    }
}
