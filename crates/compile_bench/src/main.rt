//! Compiles a source of so many functions: `compile_bench KIND COUNT [time|source]`.
//!
//! KIND is `loops` for functions of plain C, `spawns` for functions with a spawn block each, and `comments` for
//! functions of plain C with comments up to 1 MiB. It prints how many bytes, lines and instructions there are. With a
//! third word `time` it prints the bytes, the lines and the nanoseconds that the compiler took, in place of that, and
//! with `source` the source itself.
#![tactic(auto)]

use std::alloc::{AllocError, Global};
use std::time::Instant;
use std::{env, io};
use xmt_compile::compile;

const HEAD: &str = "int values[64];
int total;
";

const LOOP: &str = " {
    int i, sum = low;
    for (i = low; i < high; i++) {
        if (i % 3 == 0) continue;
        sum += values[i & 63] * 31 - (i > 7 ? i : -1);
    }
    while (sum > 1000) sum = sum / 2 - 1;
    values[low & 63] = sum;
    return sum;
}
";

const SPAWN: &str = " {
    int k = low;
    spawn(low, high) {
        int e = $ * k;
        if (e > 7) e -= values[$ & 63]; else e = 1;
        psm(e, values[$ & 63]);
    }
    while (k > 1000) k = k / 2 - 1;
    total += k;
    return k;
}
";

const COMMENT: &str =
    "// a comment that the compiler passes over, as it does with all of its like\n";

// Room for the end of the source is left.
const MOST: usize = 1_048_500;

// What a source is made of.
#[derive(Clone, Copy)]
enum Kind {
    Loops,
    Spawns,
    Comments,
}

fn kind_of(word: &str) -> Option<Kind> {
    match word {
        "loops" => Some(Kind::Loops),
        "spawns" => Some(Kind::Spawns),
        "comments" => Some(Kind::Comments),
        _ => None,
    }
}

fn body_of(kind: Kind) -> &'static str {
    match kind {
        Kind::Spawns => SPAWN,
        Kind::Loops | Kind::Comments => LOOP,
    }
}

// Comments up to a length of 1 MiB.
fn pad(source: &mut String) -> Result<(), AllocError> {
    let rest = MOST.saturating_sub(source.len()) / COMMENT.len();
    for _ in 0..rest {
        source.push_str(COMMENT)?;
    }
    Ok(())
}

fn source_of(alloc: Global, kind: Kind, count: u32) -> Result<String, AllocError> {
    let mut source = String::from_str(alloc, HEAD)?;
    for number in 0..count {
        let head = format!(in alloc; "int f{number}(int low, int high)")?;
        source.push_str(head.as_str())?;
        source.push_str(body_of(kind))?;
    }
    if matches!(kind, Kind::Comments) {
        pad(&mut source)?;
    }
    source.push_str("int main() { return 0; }\n")?;
    Ok(source)
}

fn lines_in(source: &str) -> usize {
    source
        .as_bytes()
        .iter()
        .filter(|byte| **byte == b'\n')
        .count()
}

fn main(rt: HostRuntime) -> io::Result<()> {
    let given: Vec<String> = env::args(&rt)?.collect(rt.alloc())?;
    let kind = given.get(1).and_then(|word| kind_of(word.as_str()));
    let count = given.get(2).map(|word| word.parse::<u32>());
    let (Some(kind), Some(Ok(count))) = (kind, count) else {
        return eprintln!(rt; "usage: compile_bench loops|spawns|comments COUNT [time|source]");
    };
    let source = source_of(rt.alloc(), kind, count)?;
    let asked = given.get(3).map_or("", |word| word.as_str());
    if asked == "source" {
        return print!(rt; "{source}");
    }
    let start = Instant::now(&rt)?;
    let Ok(image) = compile(rt.alloc(), source.as_bytes()) else {
        return eprintln!(rt; "compile_bench: the source is refused");
    };
    let taken = start.elapsed(&rt)?.as_nanos();
    let lines = lines_in(source.as_str());
    if asked == "time" {
        return println!(rt; "{} {lines} {taken}", source.len());
    }
    println!(rt;
        "{} bytes, {lines} lines, {} instructions",
        source.len(),
        image.code.len()
    )
}
