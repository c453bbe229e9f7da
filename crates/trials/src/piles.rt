// A pile of layers over a list sheet, gradings included, and a list sheet that is filled to its last place.
use archive::desk::Desk;
use layers::folder::Folder;
use layers::turn::Turn;
use listsheet::ListSheet;
use model::decline::Decline;
use script::step::step;
use sheet::meaning::Sheet;
use std::io;
use std::io::Write;

// The lines one after another, at a desk over the pile.
fn over(
    rt: &HostRuntime,
    name: &str,
    pile: Turn<Folder<ListSheet>>,
    lines: &[u8],
) -> io::Result<()> {
    let mut desk = Desk::open(pile);
    let mut out = [0; 2048];
    println!(rt; "-- {name}")?;
    for line in lines.split_inclusive(|b| *b == b'\n') {
        match step(&mut desk, line, &mut out) {
            Ok(n) => rt.stdout().write_all(&out[..n])?,
            Err(decline) => println!(rt; "no {}", decline.number())?,
        }
    }
    Ok(())
}

// Records 0 to 3 and the marks 0 1 and 1 2, in a folder that has set 3 aside.
fn lower_folder() -> Folder<ListSheet> {
    let mut folder = Folder::new(ListSheet::new());
    for u in 0..4 {
        let _ = folder.enter(u);
    }
    let _ = folder.mark(0, 1);
    let _ = folder.mark(1, 2);
    let _ = folder.set_aside(3);
    folder
}

// How many marks from u to records below 24 are taken.
fn mark_from(sheet: &mut ListSheet, u: u8) -> u32 {
    let mut taken = 0u32;
    for v in 0..24 {
        if sheet.mark(u, v).is_ok() {
            taken = taken.saturating_add(1);
        }
    }
    taken
}

fn call(rt: &HostRuntime, name: &str, r: Result<(), Decline>) -> io::Result<()> {
    match r {
        Ok(()) => println!(rt; "{name}: ok"),
        Err(decline) => println!(rt; "{name}: no {}", decline.number()),
    }
}

// 24 records have 552 pairs, 40 more than the list has places.
fn full_list(rt: &HostRuntime) -> io::Result<()> {
    let mut sheet = ListSheet::new();
    let mut taken = 0u32;
    for u in 0..24 {
        let _ = sheet.enter(u);
    }
    for u in 0..24 {
        taken = taken.saturating_add(mark_from(&mut sheet, u));
    }
    println!(rt; "-- a full list")?;
    println!(rt; "marks taken: {taken}, held: {}", sheet.held())?;
    call(rt, "one mark more", sheet.mark(23, 22))?;
    call(rt, "a mark that is there", sheet.mark(0, 1))?;
    call(rt, "a mark struck", sheet.strike(0, 1))?;
    call(rt, "its place taken again", sheet.mark(23, 22))?;
    call(rt, "the struck mark again", sheet.mark(0, 1))?;
    println!(rt; "held: {}", sheet.held())
}

pub fn piles(rt: &HostRuntime) -> io::Result<()> {
    over(
        rt,
        "a folder over a turn over a folder over a list",
        Turn::new(lower_folder()),
        b"g 1 2\nr\nh 1 2\no\nm 2 0\ns 1 0\na 2\ng 1 0\nr\nm 0 2\nb 2\no\ne 3\na 3\nb 3\ne 4\nr\n",
    )?;
    full_list(rt)
}
