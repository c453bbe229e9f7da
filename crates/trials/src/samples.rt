// The sample folders, worked out by hand in docs/SAMPLES.md: each as a script with its answers, and the bytes of its release.
use crate::trial;
use dispatch::dispatch::dispatch;
use dispatch::refusal::Refusal;
use std::io;

fn release(rt: &HostRuntime, script: &[u8]) -> io::Result<()> {
    match dispatch(rt.alloc(), script) {
        Ok(bytes) => println!(rt; "release {bytes:?}"),
        Err(Refusal::Declined(decline)) => println!(rt; "no release: {}", decline.number()),
        Err(Refusal::NoHeap(error)) => Err(error.into()),
    }
}

fn sample(rt: &HostRuntime, name: &str, script: &[u8]) -> io::Result<()> {
    trial(rt, name, script)?;
    release(rt, script)
}

fn of_few_records(rt: &HostRuntime) -> io::Result<()> {
    sample(rt, "sample 1: no records", b"bits\nr\n")?;
    sample(
        rt,
        "sample 2: two records, no mark",
        b"bits\ne 0\ne 1\nr\ng 1 0\n",
    )?;
    sample(
        rt,
        "sample 3: one mark alone",
        b"bits\ne 0\ne 1\nm 0 1\nr\ng 1 0\n",
    )?;
    sample(
        rt,
        "sample 7: marked both ways",
        b"bits\ne 0\ne 1\nm 0 1\nm 1 0\nr\n",
    )?;
    sample(
        rt,
        "sample 10: three records, the outer two marked",
        b"bits\ne 0\ne 1\ne 2\nm 0 2\nr\ng 2 1\n",
    )
}

fn of_a_path(rt: &HostRuntime) -> io::Result<()> {
    sample(
        rt,
        "samples 4 and 5: a path of four",
        b"bits\ne 0\ne 1\ne 2\ne 3\nm 0 1\nm 1 2\nm 2 3\nr\ng 1 2\ng 1 3\nh 1 3\nh 1 4\n",
    )?;
    sample(
        rt,
        "sample 6: that path, record 3 aside",
        b"list\ne 0\ne 1\ne 2\ne 3\nm 0 1\nm 1 2\nm 2 3\na 3\nr\ng 1 2\n",
    )?;
    sample(
        rt,
        "sample 6: that path, record 1 aside instead",
        b"list\ne 0\ne 1\ne 2\ne 3\nm 0 1\nm 1 2\nm 2 3\na 1\nr\ng 2 1\n",
    )
}

fn of_more_marks(rt: &HostRuntime) -> io::Result<()> {
    sample(
        rt,
        "sample 8: two marks apart",
        b"bits\ne 0\ne 1\ne 2\ne 3\nm 0 1\nm 2 3\nr\ng 2 2\n",
    )?;
    sample(
        rt,
        "sample 9: all six upward, and one unmarked",
        b"bits\ne 0\ne 1\ne 2\ne 3\ne 4\nm 0 1\nm 0 2\nm 0 3\nm 1 2\nm 1 3\nm 2 3\nr\ng 2 3\n",
    )
}

pub fn samples(rt: &HostRuntime) -> io::Result<()> {
    of_few_records(rt)?;
    of_a_path(rt)?;
    of_more_marks(rt)
}
