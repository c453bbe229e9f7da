// What a call is answered by. Its lists lie in the answer itself: an answer needs no heap.
use arrayvec::ArrayVec;
use model::decline::Decline;

// A strict grade a, b, to be read as 128*a + b in parts of 128. b is minus the marks of a walk of at most 64 steps.
#[derive(Clone, Copy, Default)]
pub struct StrictGrade {
    pub a: i64,
    pub b: i8,
}

// One standing record and its grade.
#[derive(Clone, Copy, Default)]
pub struct Graded<G> {
    pub record: u8,
    pub grade: G,
}

// One case for each form of a line. At most 64 records stand, and so no list is longer.
#[derive(Drop)]
pub enum Answer {
    Taken,
    Declined(Decline),
    // declined, and the ring that forces it
    Forced(Decline, ArrayVec<u8, 64>),
    // the standing records rising, each with its grade: loose, strict, and on the unit scale
    Wholes(ArrayVec<Graded<i64>, 64>),
    Pairs(ArrayVec<Graded<StrictGrade>, 64>),
    Units(ArrayVec<Graded<i64>, 64>),
    // the least ratio, the ring that shows it (none for 0 to 1), and the grades for t1 = hops and t2 = marks
    Ratio {
        marks: u8,
        hops: u8,
        ring: ArrayVec<u8, 64>,
        grades: ArrayVec<Graded<i64>, 64>,
    },
}
