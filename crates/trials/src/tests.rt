// What no script can show: memory or output that is too small, unit grading outside the limits, and grading on a pair of scales of one's own
// choosing.
use archive::answer::Answer;
use archive::desk::Desk;
use dispatch::dispatch::dispatch_into;
use grading::grade::grade;
use grading::kinds::graded;
use grading::memory::{Memory, Room};
use model::thresholds::Thresholds;
use scale::pair::Pair;
use scale::scale::Scale;
use scale::unit::Unit;
use scale::whole::Whole;
use script::print::print;
use script::step::step;
use sheet::bitsheet::BitSheet;
use sheet::meaning::Sheet;

// Records 0 and 1, and the mark from 0 to 1.
fn one_mark() -> BitSheet {
    let mut sheet = BitSheet::new();
    let _ = sheet.enter(0);
    let _ = sheet.enter(1);
    let _ = sheet.mark(0, 1);
    sheet
}

#[test]
fn a_short_ring_is_declined(rt: HostRuntime) {
    let none = Whole { value: 7 };
    let mut grades = [none; 64];
    let mut ring = [9; 63];
    let mut values = [none; 4160];
    let mut bytes = [9; 4160];
    let sheet = one_mark();
    let mut memory = Memory {
        grades: &mut grades,
        ring: &mut ring,
        values: &mut values,
        bytes: &mut bytes,
    };
    let r = graded(&sheet, Thresholds { t1: 1, t2: 0 }, &mut memory);
    assert_eq!(rt; r.err().map(|d| d.number()), Some(1));
    assert_eq!(rt; grades[0].value, 7);
}

// The unit first, and then the whole: a pair in the other order.
#[test]
fn any_pair_is_a_scale(rt: HostRuntime) {
    let none = Pair {
        first: Unit { value: 7 },
        second: Whole { value: 7 },
    };
    let mut grades = [none; 65];
    let mut ring = [9; 65];
    let mut values = [none; 4161];
    let mut bytes = [9; 4161];
    let sheet = one_mark();
    let mut memory = Memory {
        grades: &mut grades,
        ring: &mut ring,
        values: &mut values,
        bytes: &mut bytes,
    };
    let r = grade(&sheet, Thresholds { t1: 5, t2: 0 }, &mut memory);
    assert!(rt; r.is_ok());
    assert_eq!(rt; grades[0].first.value, -1);
    assert_eq!(rt; grades[0].second.value, -5);
    assert_eq!(rt; grades[1].second.value, 0);
    assert_eq!(rt; grades[2].second.value, 7);
    assert_eq!(rt; ring[0], 9);
}

#[test]
fn a_line_needs_2048_bytes(rt: HostRuntime) {
    let mut out = [9; 2048];
    assert!(rt; print(&Answer::Taken, &mut out[..2047]).is_err());
    assert_eq!(rt; out[0], 9);
    assert_eq!(rt; print(&Answer::Taken, &mut out).ok(), Some(3));
    assert_eq!(rt; out[2], 10);
    assert_eq!(rt; out[3], 9);
}

#[test]
fn a_step_with_too_few_bytes_takes_no_call(rt: HostRuntime) {
    let mut desk = Desk::open(BitSheet::new());
    let mut out = [9; 2048];
    assert!(rt; step(&mut desk, b"e 0\n", &mut out[..2047]).is_err());
    assert!(rt; out[0] == 9 && !desk.folder().state(0).stands());
    assert_eq!(rt; step(&mut desk, b"e 0\n", &mut out).ok(), Some(3));
    assert!(rt; out[2] == 10 && out[3] == 9 && desk.folder().state(0).stands());
}

#[test]
fn unit_grading_checks_its_thresholds(rt: HostRuntime) {
    let mut room = Room::<Unit>::new();
    let mut memory = room.lend();
    let r = graded(&one_mark(), Thresholds { t1: 0, t2: 0 }, &mut memory);
    assert_eq!(rt; r.err().map(|d| d.number()), Some(11));
    assert!(rt; graded(&one_mark(), Thresholds { t1: 7, t2: 9 }, &mut memory).is_ok());
    assert_eq!(rt; memory.grades[0].value, -1);
}

// Records 0 and 1 and the mark from 0 to 1. No ring has a mark: the depths are those for t1 = 1 and t2 = 0, 1 and 0, and there is no ring.
#[test]
fn a_release_of_a_script_needs_no_heap(rt: HostRuntime) {
    let script = b"bits\ne 0\ne 1\nm 0 1\n";
    let mut room = Room::new();
    let mut out = [9; 13];
    let short = dispatch_into(script, &mut room.lend(), &mut out[..11]);
    assert_eq!(rt; short.err().map(|d| d.number()), Some(1));
    let unnamed = dispatch_into(b"bit\n", &mut room.lend(), &mut out);
    assert_eq!(rt; unnamed.err().map(|d| d.number()), Some(17));
    assert!(rt; out == [9; 13]);
    assert_eq!(rt;
        dispatch_into(script, &mut room.lend(), &mut out).ok(),
        Some(13)
    );
    assert!(rt; out == [2, 0, 1, 1, 0, 0, 1, 2, 1, 0, 0, 0, 0]);
}
