// Calls made directly on a folder beside the same calls at a desk, a replay with too few places, and a ring with too little room.
use crate::answer::Answer;
use crate::call::Call;
use crate::desk::Desk;
use crate::replay::replay;
use grading::kinds::graded;
use grading::memory::{Memory, Room};
use grading::ratio::least_ratio;
use layers::folder::Folder;
use model::decline::Decline;
use model::thresholds::Thresholds;
use scale::whole::Whole;
use sheet::bitsheet::BitSheet;
use sheet::meaning::Sheet;

// Whether a desk answers what the folder gave.
fn agree(given: Result<(), Decline>, answer: Answer) -> bool {
    match (given, answer) {
        (Ok(()), Answer::Taken) => true,
        (Err(d), Answer::Declined(e)) => d == e,
        _ => false,
    }
}

// Records 0, 1 and 2, and the mark from 0 to 2: the ring 0 2 1 has one mark and two hops.
#[test]
fn a_desk_answers_as_direct_calls_do(rt: HostRuntime) {
    let mut folder = Folder::new(BitSheet::new());
    let mut desk = Desk::open(BitSheet::new());
    for u in 0..3 {
        assert!(rt; agree(folder.enter(u), desk.answer(Call::Enter(u))));
    }
    assert!(rt; agree(folder.enter(2), desk.answer(Call::Enter(2))));
    assert!(rt; agree(folder.mark(0, 2), desk.answer(Call::Mark(0, 2))));
    assert!(rt; agree(folder.set_aside(3), desk.answer(Call::SetAside(3))));

    let at = Thresholds { t1: 2, t2: 1 };
    let mut room = Room::<Whole>::new();
    let mut memory = room.lend();
    assert!(rt; graded(&folder, at, &mut memory).is_ok());
    match desk.answer(Call::Loose(at)) {
        Answer::Wholes(list) => {
            for (entry, grade) in list.iter().zip([-2, -1, 0]) {
                let there = memory.grades.get(entry.record as usize);
                assert_eq!(rt; there.map(|x| x.value), Some(grade));
                assert_eq!(rt; entry.grade, grade);
            }
            assert_eq!(rt; list.len(), 3);
        }
        _ => assert!(rt; false),
    }
    match (least_ratio(&folder, &mut memory), desk.answer(Call::Ratio)) {
        (
            Ok(least),
            Answer::Ratio {
                marks,
                hops,
                ring,
                ..
            },
        ) => {
            assert_eq!(rt; (least.marks, least.hops, least.ring), (1, 2, 3));
            assert_eq!(rt; (marks, hops), (1, 2));
            assert!(rt; ring.as_slice() == [0, 2, 1].as_slice());
            assert!(rt; memory.ring.starts_with(&[0, 2, 1]));
        }
        _ => assert!(rt; false),
    }
}

#[test]
fn too_few_places_are_kept(rt: HostRuntime) {
    let calls = [Call::Enter(0), Call::Enter(1)];
    let mut answers = [Answer::Declined(Decline::WrongLine)];
    let replayed = replay(BitSheet::new(), &calls, &mut answers);
    assert_eq!(rt; replayed.err().map(|d| d.number()), Some(1));
    assert!(rt; matches!(answers[0], Answer::Declined(Decline::WrongLine)));
}

#[test]
fn a_short_ring_is_kept(rt: HostRuntime) {
    let none = Whole { value: 7 };
    let mut grades = [none; 64];
    let mut ring = [9; 63];
    let mut values = [none; 4160];
    let mut bytes = [9; 4160];
    let mut folder = Folder::new(BitSheet::new());
    assert!(rt; folder.enter(0).is_ok());
    let mut memory = Memory {
        grades: &mut grades,
        ring: &mut ring,
        values: &mut values,
        bytes: &mut bytes,
    };
    let r = graded(&folder, Thresholds { t1: 1, t2: 0 }, &mut memory);
    assert_eq!(rt; r.err().map(|d| d.number()), Some(1));
    assert!(rt; grades.iter().all(|x| x.value == 7));
    assert!(rt; ring == [9; 63]);
    assert!(rt; values.iter().all(|x| x.value == 7));
    assert!(rt; bytes == [9; 4160]);
    assert!(rt; folder.state(0).stands());
}
