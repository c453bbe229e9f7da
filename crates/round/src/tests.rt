// Releases read at run time: the example, bytes that are missing, changed or left over, and a sheet there and back.
use crate::trip::write_and_read;
use grading::memory::Memory;
use model::decline::Decline;
use reading::read::read_release;
use reading::release::Release;
use scale::whole::Whole;
use sheet::bitsheet::BitSheet;
use sheet::meaning::Sheet;
use std::process::Abort;

// Records 0, 1 and 2, and the mark from 0 to 2: the ring 0 2 1 has one mark and two hops.
const EXAMPLE: [u8; 19] = [3, 0, 1, 2, 1, 0, 0, 2, 3, 2, 0, 1, 0, 0, 0, 3, 0, 2, 1];

// The number by which the reading is declined.
fn declined_by(bytes: &[u8]) -> Option<u8> {
    read_release(bytes).err().map(|d| d.number())
}

fn is_example(rt: &impl Abort, release: &Release) {
    assert_eq!(rt; release.records(), 3);
    assert!(rt; release.is_marked(0, 2) && !release.is_marked(2, 0) && !release.is_marked(0, 1));
    assert_eq!(rt; release.grade(0), Some(-2));
    assert_eq!(rt; release.grade(1), Some(-1));
    assert_eq!(rt; release.grade(2), Some(0));
    assert_eq!(rt; release.grade(3), None);
    assert!(rt; release.ring() == [0, 2, 1].as_slice());
    assert_eq!(rt; release.marks(), 1);
    assert_eq!(rt; release.hops(), 2);
}

#[test]
fn the_example_is_read(rt: HostRuntime) {
    match read_release(&EXAMPLE) {
        Ok(release) => is_example(&rt, &release),
        Err(_) => assert!(rt; false),
    }
}

#[test]
fn five_zeros_are_read(rt: HostRuntime) {
    match read_release(&[0; 5]) {
        Ok(release) => {
            assert_eq!(rt; release.records(), 0);
            assert!(rt; release.ring().is_empty());
            assert_eq!(rt; release.marks(), 0);
            assert_eq!(rt; release.hops(), 1);
        }
        Err(_) => assert!(rt; false),
    }
}

#[test]
fn a_shorter_text_misses_a_byte(rt: HostRuntime) {
    for n in 0..19 {
        assert_eq!(rt; declined_by(&EXAMPLE[..n]), Some(14));
    }
}

#[test]
fn a_longer_text_has_a_byte_left(rt: HostRuntime) {
    let mut bytes = [0; 20];
    bytes[..19].copy_from_slice(&EXAMPLE);
    assert_eq!(rt; declined_by(&bytes), Some(15));
}

#[test]
fn a_false_grade_does_not_hold(rt: HostRuntime) {
    let mut bytes = EXAMPLE;
    bytes[13] = 1;
    assert_eq!(rt; declined_by(&bytes), Some(16));
}

// No byte of the example can be another: each record, each grade and each place of the ring is the only one that goes with the rest.
#[test]
fn every_changed_byte_is_declined(rt: HostRuntime) {
    for i in 0..19 {
        for b in 0..=255 {
            let mut bytes = EXAMPLE;
            bytes[i] = b;
            assert!(rt; b == EXAMPLE[i] || declined_by(&bytes).is_some());
        }
    }
}

#[test]
fn a_sheet_goes_there_and_back(rt: HostRuntime) {
    let mut sheet = BitSheet::new();
    let _ = sheet.enter(0);
    let _ = sheet.enter(1);
    let _ = sheet.enter(2);
    let _ = sheet.mark(0, 2);
    let none = Whole { value: 7 };
    let mut memory = Memory {
        grades: &mut [none; 64],
        ring: &mut [9; 64],
        values: &mut [none; 4160],
        bytes: &mut [9; 4160],
    };
    let mut out = [9; 20];
    match write_and_read(&sheet, &mut memory, &mut out) {
        Ok((length, release)) => {
            assert_eq!(rt; length, 19);
            is_example(&rt, &release);
        }
        Err(_) => assert!(rt; false),
    }
    assert!(rt; out[..19] == EXAMPLE[..]);
}
