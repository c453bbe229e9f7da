// Runs scripts that go to the edges of the rules, and shows each with its answers.
#![tactic(auto)]

mod piles;
mod samples;
#[cfg(test)]
mod tests;

use crate::piles::piles;
use crate::samples::samples;
use script::run::run;
use std::io;
use std::io::Write;

fn trial(rt: &HostRuntime, name: &str, script: &[u8]) -> io::Result<()> {
    let answers = run(rt.alloc(), script)?;
    println!(rt; "-- {name}")?;
    rt.stdout().write_all(&answers)
}

fn openings(rt: &HostRuntime) -> io::Result<()> {
    trial(rt, "empty input", b"")?;
    trial(rt, "an empty first line", b"\ne 0\n")?;
    trial(rt, "another first line", b"bit\ne 0\n")?;
    trial(rt, "a space after the make", b"bits \ne 0\n")?;
    trial(rt, "the other make", b"list\ne 0\n")?;
    trial(rt, "both makes", b"list bits\n")?;
    trial(rt, "the make alone", b"bits\n")?;
    trial(rt, "the make alone, without byte 10", b"bits")?;
    trial(rt, "a last line without byte 10", b"bits\ne 0\ne 0")
}

fn wrong_lines(rt: &HostRuntime) -> io::Result<()> {
    trial(
        rt,
        "no line, no letter, another letter",
        b"bits\n\n 1\nx\nE 1\nee 1\n",
    )?;
    trial(
        rt,
        "too few and too many numbers",
        b"bits\ne\nm 1\ng 1\no 1\nr 1\na\nb 1 2\ne 1 2\nm 1 2 3\n",
    )?;
    trial(rt, "spaces", b"bits\ne  1\ne 1 \n e 1\ne\t1\ne1\ne 1\r\n")?;
    trial(
        rt,
        "digits",
        b"bits\ne 01\ne 00\ne -1\ne +1\ne 1a\ne 12345678\n",
    )?;
    trial(
        rt,
        "a line of 80 bytes, and one of 81",
        b"bits\neeeeeeeeeeeeeeeeeeeeeeeeeeeeeeeeeeeeeeeeeeeeeeeeeeeeeeeeeeeeeeeeeeeeeeeeeeeeeeee\neeeeeeeeeeeeeeeeeeeeeeeeeeeeeeeeeeeeeeeeeeeeeeeeeeeeeeeeeeeeeeeeeeeeeeeeeeeeeeeee\n",
    )
}

fn declined_calls(rt: &HostRuntime) -> io::Result<()> {
    trial(
        rt,
        "record numbers",
        b"bits\ne 63\ne 64\ne 255\ne 256\ne 9999999\nm 63 64\n",
    )?;
    trial(rt, "entering", b"bits\ne 0\ne 0\n")?;
    trial(
        rt,
        "marking",
        b"bits\ne 0\ne 1\nm 0 0\nm 0 2\nm 0 1\nm 0 1\nm 1 0\ns 1 0\ns 1 0\nm 64 64\n",
    )?;
    trial(
        rt,
        "limits",
        b"bits\ng 0 0\ng 1 0\ng 1000000 1000000\ng 1000001 0\ng 1 1000001\nh 0 1\nh 9999999 0\n",
    )
}

fn setting_aside(rt: &HostRuntime) -> io::Result<()> {
    trial(
        rt,
        "set aside and bring back",
        b"list\na 64\nb 64\na 0\nb 0\ne 0\nb 0\na 0\na 0\ne 0\nb 0\nb 0\n",
    )?;
    trial(
        rt,
        "marks of a record that is aside",
        b"list\ne 0\ne 1\ne 2\nm 0 1\na 1\nm 0 1\ns 0 1\nm 2 1\ng 1 0\nb 1\nm 0 1\ng 1 1\ns 0 1\n",
    )
}

fn gradings(rt: &HostRuntime) -> io::Result<()> {
    trial(rt, "nothing stands", b"bits\ng 1 0\nh 1 0\no\n")?;
    trial(
        rt,
        "a path of four",
        b"bits\ne 0\ne 1\ne 2\ne 3\nm 0 1\nm 1 2\nm 2 3\ng 1 2\ng 1 3\nh 1 3\nh 1 4\no\n",
    )?;
    trial(
        rt,
        "both ways",
        b"bits\ne 0\ne 1\nm 0 1\nm 1 0\ng 1 1000000\nh 1 1000000\no\n",
    )?;
    trial(
        rt,
        "two marks apart",
        b"bits\ne 0\ne 1\ne 2\ne 3\nm 0 1\nm 2 3\ng 2 2\ng 2 1\n",
    )?;
    trial(
        rt,
        "the widest thresholds",
        b"bits\ne 7\ne 9\nm 9 7\ng 1000000 0\nh 1000000 0\n",
    )
}

// Circles and rings beside those of the sample folders.
fn circles(rt: &HostRuntime) -> io::Result<()> {
    trial(
        rt,
        "a circle of three, and more that stands",
        b"list\ne 5\ne 9\ne 7\ne 2\nm 9 5\nm 5 7\nm 7 9\nm 2 5\nr\ns 7 9\nr\n",
    )?;
    trial(
        rt,
        "a circle that is set aside",
        b"bits\ne 0\ne 1\nm 0 1\nm 1 0\nr\na 1\nr\n",
    )
}

fn main(rt: HostRuntime) -> io::Result<()> {
    openings(&rt)?;
    wrong_lines(&rt)?;
    declined_calls(&rt)?;
    setting_aside(&rt)?;
    gradings(&rt)?;
    samples(&rt)?;
    circles(&rt)?;
    piles(&rt)
}
