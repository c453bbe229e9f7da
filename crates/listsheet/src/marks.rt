// The marks of a list sheet in a list alone, with nothing promised of them.
ghost use Rattle.std.specs.Prelude.{◌≡◌, ◌+◌, ◌<◌, [], ◌∷◌, ◌++◌, length, ◌==◌};
ghost use Rattle.std.specs.List.{position, swap_remove};
ghost use Rattle.listsheet.specs.Places.{place, mark_of, is_pair, list_marks};

use arrayvec::ArrayVec;

// One mark: the record `to` was judged stronger than `from`.
#[derive(Clone, Copy, Debug, Default, PartialEq, Eq)]
pub(crate) struct Mark {
    from: u8,
    to: u8,
}

impl Mark {
    // Not by the derived `==`, which chooses after the first half: reading a full list 500 times takes 0.8 s by that, and 0.16 s so.
    fn is(self, u: u8, v: u8) -> bool
        ensures { result ≡ is_pair self u v }
    {
        (u == self.from) & (v == self.to)
    }
}

#[derive(Drop)]
pub(crate) struct MarkList {
    marks: ArrayVec<Mark, 512>,
}

impl MarkList {
    pub(crate) fn empty() -> MarkList
        ensures { result.marks.items ≡ [] }
    {
        MarkList {
            marks: ArrayVec::new(),
        }
    }

    pub(crate) fn len(&self) -> u16
        ensures { result ≡ length self.now.marks.items }
    {
        self.marks.len() as u16
    }

    pub(crate) fn full(&self) -> bool
        ensures { result ≡ (length self.now.marks.items == 512) }
    {
        self.marks.is_full()
    }

    // The place of the mark from u to v, if it is in the list.
    pub(crate) fn find(&self, u: u8, v: u8) -> Option<usize>
        ensures { result ≡ position (λ k. is_pair k u v) self.now.marks.items }
    {
        self.marks.iter().position(|mark| mark.is(u, v))
    }

    // Whether the mark is in the list. This is asked of every pair when a sheet is read: a fold that goes to the end without
    // a choice on its way is read several places at a time.
    pub(crate) fn has(&self, u: u8, v: u8) -> bool
        ensures { result ≡ list_marks self.now.marks.items u v }
    {
        self.marks
            .iter()
            .fold(false, |found, mark| found | mark.is(u, v))
    }

    // Adds the mark from u to v after the others.
    pub(crate) fn push(&mut self, u: u8, v: u8)
        requires { length self.old.marks.items < 512 }
        ensures items { self.new.marks.items ≡ self.old.marks.items ++ mark_of u v ∷ [] }
        ensures len { length self.new.marks.items ≡ length self.old.marks.items + 1 }
    {
        self.marks.push(Mark { from: u, to: v });
    }

    // Takes the mark in place k away: the last mark moves there.
    pub(crate) fn remove(&mut self, k: usize)
        requires { k < length self.old.marks.items }
        ensures items { self.new.marks.items ≡ swap_remove self.old.marks.items k (place self.old.marks.items k) }
        ensures len { length self.new.marks.items + 1 ≡ length self.old.marks.items }
    {
        self.marks.swap_remove(k);
    }
}
