// Traces from outside with the reports that they must have: NAME.trace and NAME.answers, in the folder that it is started in, for each NAME
// that it is started with. Each trace goes through trace::report, and every byte of the report is compared.
#![tactic(auto)]

ghost use Rattle.std.specs.Prelude.{◌≡◌, ◌≤◌, IsNone, length, take};
ghost use Rattle.std.specs.Io.{ReadsAtMost};

use std::env::FillError;
use std::rt::{Env, Files};
use std::{fs, io, str};

// Reads the file whose path is the first n bytes of path and then ending, and answers how many bytes it put into buf. Of a file that can't
// be opened it tells why on standard error, and puts nothing.
fn load(
    rt: &(impl Files + Eprint),
    path: &mut [u8],
    n: usize,
    ending: &[u8],
    buf: &mut [u8],
) -> io::Result<usize>
    ensures { ReadsAtMost result buf.new }
{
    let end = put_after(path, n, ending);
    let Ok(name) = str::from_utf8(&path[..end]) else {
        eprintln!(rt; "a path that is no text")?;
        return Ok(0);
    };
    match fs::open(rt, name) {
        Ok(mut file) => intake::read_full(&mut file, buf),
        Err(why) => {
            eprintln!(rt; "{name}: {why}")?;
            Ok(0)
        }
    }
}

// Puts w into path after its first n bytes, as far as there is room, and answers the place after it. A path is bytes, since an argument need not
// be text.
fn put_after(path: &mut [u8], n: usize, w: &[u8]) -> usize
    ensures within { result ≤ length path.new }
    ensures counts { result ≡ length (take result path.new) }
{
    let Some(room) = path.get_mut(n..) else {
        return 0;
    };
    let k = room.len().min(w.len());
    room[..k].copy_from_slice(&w[..k]);
    n + k
}

// The number of the first byte, from 1 on, in which a and b differ.
fn difference(a: &[u8], b: &[u8]) -> Option<usize>
    ensures { IsNone result → a.now ≡ b.now }
{
    for i in 0..a.len() {
        if b.get(i) != Some(&a[i]) {
            return Some(i + 1);
        }
    }
    if a.len() < b.len() {
        return Some(a.len() + 1);
    }
    None
}

// Judges the trace of argument i and prints a line. Answers whether the report is the same.
fn is_same(rt: &(impl Env + Files + Print + Eprint), i: usize) -> io::Result<bool> {
    let mut path = [0u8; 128];
    // An argument that is longer than the path is taken as an empty one.
    let n = rt.arg(i, &mut path).unwrap_or(0);
    rt.write_all(&path[..n])?;
    let mut input = [0u8; 65537];
    let m = load(rt, &mut path, n, b".trace", &mut input)?;
    let mut answers = [0u8; 65601];
    let k = load(rt, &mut path, n, b".answers", &mut answers)?;
    let mut out = [0u8; 65600];
    let written = trace::report(&input[..m], &mut out).written;
    match difference(&out[..written], &answers[..k]) {
        None => {
            println!(rt; ": same")?;
            Ok(true)
        }
        Some(at) => {
            println!(rt; ": differs at byte {at}")?;
            Ok(false)
        }
    }
}

fn main(rt: HostRuntime) -> io::Result<()> {
    let mut same: usize = 0;
    let mut different: usize = 0;
    for i in 1..usize::MAX {
        let mut path = [0u8; 128];
        if let Err(FillError::NotPresent) = rt.arg(i, &mut path) {
            break;
        }
        if is_same(&rt, i)? {
            same += 1;
        } else {
            different += 1;
        }
    }
    println!(rt; "{same} same, {different} different")
}
