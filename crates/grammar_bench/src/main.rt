//! Takes a source of so many functions apart: `grammar_bench FUNCTIONS [time]`.
//!
//! It prints how many bytes, tokens and items there are. With a second word `time` it prints the bytes, and the
//! nanoseconds that the tokens took and that the tree took, in place of that.
#![tactic(auto)]

use std::alloc::{AllocError, Global};
use std::time::Instant;
use std::{env, io};
use xmt_lex::lex;
use xmt_parse::parse;

const FUNCTION: &[u8] = b"int scaled(int low, const int high) {
    int i, sum = 0;
    for (i = low; i < high; i++) {
        // each element that is not hidden
        if (hidden[i]) continue; else sum += values[i] * 0x1F - (i % 3 ? f(i, sum) : -1);
    }
    spawn(low, high) { int one = 1; ps(one, counter); out[one] = values[$]; }
    return sum;
}
";

fn source_of(alloc: Global, functions: u32) -> Result<Vec<u8>, AllocError> {
    let mut source = Vec::new(alloc);
    for _ in 0..functions {
        source.extend_from_slice(FUNCTION)?;
    }
    Ok(source)
}

fn main(rt: HostRuntime) -> io::Result<()> {
    let given: Vec<String> = env::args(&rt)?.collect(rt.alloc())?;
    let Some(Ok(functions)) = given.get(1).map(|word| word.parse::<u32>()) else {
        return eprintln!(rt; "usage: grammar_bench FUNCTIONS [time]");
    };
    let source = source_of(rt.alloc(), functions)?;
    if source.len() > 1048576 {
        return eprintln!(rt; "grammar_bench: more than 1 MiB");
    }
    let start = Instant::now(&rt)?;
    let Ok(tokens) = lex(rt.alloc(), &source) else {
        return eprintln!(rt; "grammar_bench: no tokens");
    };
    let lexed = start.elapsed(&rt)?;
    let Ok(program) = parse(rt.alloc(), &source, &tokens) else {
        return eprintln!(rt; "grammar_bench: no tree");
    };
    let parsed = start.elapsed(&rt)?;
    if given.len() > 2 {
        return println!(rt;
            "{} {} {}",
            source.len(),
            lexed.as_nanos(),
            parsed.as_nanos()
        );
    }
    let items = program.items.as_slice().len();
    println!(rt;
        "{} bytes, {} tokens, {items} items",
        source.len(),
        tokens.len()
    )
}
