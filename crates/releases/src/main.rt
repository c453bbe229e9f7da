// Releases on files: `releases write < SCRIPT > BYTES` writes the release of the folder that a script leaves, and
// `releases read < BYTES` shows what bytes tell. Without a word both are done, and the bytes are shown in hexadecimal.
#![tactic(auto)]

mod show;

use crate::show::{hexadecimal, tell};
use dispatch::dispatch::dispatch;
use dispatch::refusal::Refusal;
use std::io::{Read, Write};
use std::process::ExitCode;
use std::{env, io};

fn input(rt: &HostRuntime) -> io::Result<Vec<u8>> {
    let mut bytes = Vec::new(rt.alloc());
    rt.stdin().read_to_end(&mut bytes)?;
    Ok(bytes)
}

// A refusal is no release: it goes to where errors go, and the program fails.
fn refused(rt: &HostRuntime, refusal: Refusal) -> io::Result<ExitCode> {
    match refusal {
        Refusal::Declined(decline) => eprintln!(rt; "no {}", decline.number())?,
        Refusal::NoHeap(_) => eprintln!(rt; "no heap")?,
    }
    Ok(ExitCode::FAILURE)
}

// The release of the folder that the script leaves, as it is, or in hexadecimal with what it tells.
fn write(rt: &HostRuntime, script: &[u8], plain: bool) -> io::Result<ExitCode> {
    match dispatch(rt.alloc(), script) {
        Ok(bytes) if plain => rt.stdout().write_all(&bytes)?,
        Ok(bytes) => {
            hexadecimal(rt, &bytes)?;
            tell(rt, &bytes)?;
        }
        Err(refusal) => return refused(rt, refusal),
    }
    Ok(ExitCode::SUCCESS)
}

fn main(rt: HostRuntime) -> io::Result<ExitCode> {
    let word = env::args(&rt)?.nth(1);
    let bytes = input(&rt)?;
    match word.as_deref() {
        Some("write") => write(&rt, &bytes, true),
        Some("read") => tell(&rt, &bytes),
        Some(_) => {
            eprintln!(rt; "usage: releases [write | read]")?;
            Ok(ExitCode::FAILURE)
        }
        None => write(&rt, &bytes, false),
    }
}
