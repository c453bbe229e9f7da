// A list sheet filled to its last place, and a struck mark's place taken again.
use crate::ListSheet;
use model::decline::Decline;
use sheet::meaning::Sheet;

// Marks from u to the records below 24, as long as there is room.
fn mark_from(sheet: &mut ListSheet, u: u8) {
    for v in 0..24u8 {
        let _ = sheet.mark(u, v);
    }
}

// 24 records have 552 pairs, 40 more than the list has places.
fn full() -> ListSheet {
    let mut sheet = ListSheet::new();
    for u in 0..24u8 {
        let _ = sheet.enter(u);
    }
    for u in 0..24u8 {
        mark_from(&mut sheet, u);
    }
    sheet
}

#[test]
fn a_full_list_takes_a_struck_place_again(rt: HostRuntime) {
    let mut sheet = full();
    assert_eq!(rt; sheet.held(), 512);
    assert_eq!(rt; sheet.mark(23, 22), Err(Decline::SheetFull));
    assert_eq!(rt; sheet.mark(0, 1), Err(Decline::AlreadyMarked));
    assert_eq!(rt; sheet.strike(0, 1), Ok(()));
    assert_eq!(rt; sheet.held(), 511);
    assert_eq!(rt; sheet.mark(23, 22), Ok(()));
    assert_eq!(rt; sheet.mark(0, 1), Err(Decline::SheetFull));
    assert!(rt; sheet.marked(23, 22));
    assert!(rt; !sheet.marked(0, 1));
}
