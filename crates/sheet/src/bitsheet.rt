// The bit sheet: for each record a row of 64 yes-or-no answers, bit v of row u for the mark from u to v.
ghost use Rattle.std.specs.Prelude.{◌≡◌, ◌<◌, length, replicate, slice_index, slice_set};
ghost use Rattle.sheet.specs.Meanings.{pairs, empty};
ghost use Rattle.sheet.specs.Kept.{present_states, Irreflexive, PresentFrom, PresentTo};
ghost use Rattle.sheet.specs.Rows.{row_marks, ones_in as ones_of, rows_meaning};
ghost use Rattle.sheet.specs.KeptLaws.{rows_lawful};

use crate::meaning::Sheet;
use crate::present::Present;
use crate::state::State;
use model::bits::{has_bit, with_bit, without_bit};
use model::decline::Decline;

// The rows alone, with nothing promised of them.
#[derive(Drop)]
struct Rows {
    rows: [u64; 64],
}

impl Rows {
    fn empty() -> Rows
        ensures { result.rows ≡ replicate 64 0 }
    {
        Rows { rows: [0; 64] }
    }

    fn row(&self, u: u8) -> u64
        requires { u < 64 }
        ensures { result ≡ slice_index self.now.rows u }
    {
        self.rows[u as usize]
    }

    fn set_row(&mut self, u: u8, row: u64)
        requires { u < 64 }
        ensures rows { self.new.rows ≡ slice_set self.old.rows u row }
        ensures long { length self.old.rows ≡ 64 }
    {
        self.rows[u as usize] = row;
    }
}

// The ones counted over the rows: as many as marked pairs.
fn ones_in(rows: &[u64; 64]) -> u16
    ensures ones { result ≡ ones_of rows.now }
    ensures pairs { result ≡ pairs (row_marks rows.now) }
{
    rows.iter().map(|row| row.count_ones() as u16).sum()
}

#[derive(Drop)]
pub struct BitSheet {
    present: Present,
    table: Rows,
    // no yes of a record to itself
    ghost irreflexive: { Irreflexive (row_marks table.rows) },
    // nor of an absent record
    ghost from: { PresentFrom present.set (row_marks table.rows) },
    // nor to one
    ghost to: { PresentTo present.set (row_marks table.rows) },
}

impl BitSheet {
    // A sheet on which every number is absent.
    #[tactic(auto, using(crate::proofs::Tables::zeros_at, crate::proofs::Tables::zeros_empty))]
    pub fn new() -> BitSheet
        ensures { rows_meaning result.present.set result.table.rows ≡ empty 4032 }
    {
        BitSheet {
            present: Present::none(),
            table: Rows::empty(),
        }
    }
}

impl Sheet for BitSheet {
    ghost states = { λ s. present_states s.present.set };

    ghost marks = { λ s. row_marks s.table.rows };

    ghost held = { λ s. pairs (row_marks s.table.rows) };

    ghost capacity = { λ _. 4032 };

    ghost lawful = { λ s. rows_lawful s.present.set s.table.rows s.irreflexive s.from s.to };

    fn state(&self, u: u8) -> State {
        self.present.state(u)
    }

    fn marked(&self, u: u8, v: u8) -> bool {
        u < 64 && has_bit(self.table.row(u), v as usize)
    }

    fn held(&self) -> u16 {
        ones_in(&self.table.rows)
    }

    fn capacity(&self) -> u16 {
        4032
    }

    #[tactic(auto, using(crate::proofs::Keeping::enter_called))]
    fn enter(&mut self, u: u8) -> Result<(), Decline> {
        self.present.enter(u)
    }

    fn mark(&mut self, u: u8, v: u8) -> Result<(), Decline> {
        self.present.check_pair(u, v)?;
        let row = self.table.row(u);
        if has_bit(row, v as usize) {
            return Err(Decline::AlreadyMarked);
        }
        // never full: with room for one pair more, fewer than 4,032 are marked
        self.table.set_row(u, with_bit(row, v as usize));
        Ok(())
    }

    fn strike(&mut self, u: u8, v: u8) -> Result<(), Decline> {
        self.present.check_pair(u, v)?;
        let row = self.table.row(u);
        if !has_bit(row, v as usize) {
            return Err(Decline::NotMarked);
        }
        self.table.set_row(u, without_bit(row, v as usize));
        Ok(())
    }
}
