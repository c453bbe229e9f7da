// What a release tells, as text: its records with their grades, its marks, its ratio and ring.
use reading::read::read_release;
use reading::release::Release;
use std::io;
use std::process::ExitCode;

// The bytes, two digits each.
pub fn hexadecimal(rt: &HostRuntime, bytes: &[u8]) -> io::Result<()> {
    print!(rt; "bytes")?;
    for byte in bytes {
        print!(rt; " {byte:02x}")?;
    }
    println!(rt;)
}

fn records(rt: &HostRuntime, release: &Release) -> io::Result<()> {
    print!(rt; "records")?;
    for u in 0..64 {
        if let Some(grade) = release.grade(u) {
            print!(rt; " {u}:{grade}")?;
        }
    }
    println!(rt;)
}

fn marks(rt: &HostRuntime, release: &Release) -> io::Result<()> {
    print!(rt; "marks")?;
    for u in 0..64 {
        marks_from(rt, release, u)?;
    }
    println!(rt;)
}

fn marks_from(rt: &HostRuntime, release: &Release, u: u8) -> io::Result<()> {
    for v in 0..64 {
        if release.is_marked(u, v) {
            print!(rt; " {u}>{v}")?;
        }
    }
    Ok(())
}

// As the judge answers a least ratio: the ring, where there is one.
fn ratio(rt: &HostRuntime, release: &Release) -> io::Result<()> {
    print!(rt; "ratio {}/{}", release.marks(), release.hops())?;
    if !release.ring().is_empty() {
        print!(rt; " ring")?;
    }
    for u in release.ring() {
        print!(rt; " {u}")?;
    }
    println!(rt;)
}

fn all(rt: &HostRuntime, release: &Release) -> io::Result<()> {
    records(rt, release)?;
    marks(rt, release)?;
    ratio(rt, release)
}

// What the bytes tell, or the number by which they are declined.
pub fn tell(rt: &HostRuntime, bytes: &[u8]) -> io::Result<ExitCode> {
    match read_release(bytes) {
        Ok(release) => {
            all(rt, &release)?;
            Ok(ExitCode::SUCCESS)
        }
        Err(decline) => {
            println!(rt; "no {}", decline.number())?;
            Ok(ExitCode::FAILURE)
        }
    }
}
