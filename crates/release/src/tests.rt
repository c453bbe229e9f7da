// A release as bytes, its refusals, and what they keep: the bytes of small folders, written out by hand.
use crate::write::write_release;
use grading::memory::Memory;
use model::decline::Decline;
use scale::whole::Whole;
use sheet::bitsheet::BitSheet;
use sheet::meaning::Sheet;

// The release of the sheet at the front of `out`, with memory of the right size.
fn write_to(sheet: &BitSheet, out: &mut [u8]) -> Result<usize, Decline> {
    let none = Whole { value: 7 };
    let mut grades = [none; 64];
    let mut ring = [9; 64];
    let mut values = [none; 4160];
    let mut bytes = [9; 4160];
    let mut memory = Memory {
        grades: &mut grades,
        ring: &mut ring,
        values: &mut values,
        bytes: &mut bytes,
    };
    write_release(sheet, &mut memory, out)
}

// The number by which the writing is declined.
fn declined_by(written: Result<usize, Decline>) -> Option<u8> {
    written.err().map(|d| d.number())
}

// Records 0, 1 and 2, and the mark from 0 to 2.
fn three_records() -> BitSheet {
    let mut sheet = BitSheet::new();
    let _ = sheet.enter(0);
    let _ = sheet.enter(1);
    let _ = sheet.enter(2);
    let _ = sheet.mark(0, 2);
    sheet
}

#[test]
fn no_records_have_five_zeros(rt: HostRuntime) {
    let mut out = [9; 6];
    assert_eq!(rt; write_to(&BitSheet::new(), &mut out).ok(), Some(5));
    assert!(rt; out == [0, 0, 0, 0, 0, 9]);
}

#[test]
fn three_records_have_their_bytes(rt: HostRuntime) {
    let mut out = [9; 20];
    assert_eq!(rt; write_to(&three_records(), &mut out).ok(), Some(19));
    assert!(rt; out == [3, 0, 1, 2, 1, 0, 0, 2, 3, 2, 0, 1, 0, 0, 0, 3, 0, 2, 1, 9]);
}

#[test]
fn a_short_output_is_kept(rt: HostRuntime) {
    let mut out = [9; 18];
    assert_eq!(rt; declined_by(write_to(&three_records(), &mut out)), Some(1));
    assert!(rt; out == [9; 18]);
}

#[test]
fn a_circle_is_declined(rt: HostRuntime) {
    let mut sheet = three_records();
    let _ = sheet.mark(2, 0);
    let mut out = [9; 20];
    assert_eq!(rt; declined_by(write_to(&sheet, &mut out)), Some(12));
    assert!(rt; out == [9; 20]);
}
