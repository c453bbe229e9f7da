// Reads a script from standard input and writes its answers.
#![tactic(auto)]

use script::run::run;
use std::io;
use std::io::{Read, Write};

fn main(rt: HostRuntime) -> io::Result<()> {
    let mut input = Vec::new(rt.alloc());
    rt.stdin().read_to_end(&mut input)?;
    let answers = run(rt.alloc(), &input)?;
    rt.stdout().write_all(&answers)
}
