//! Sources with their tokens, their trees and their refusals: prints a line for each row of the files that are named.
//!
//! A row has the text of a source, or the parts of one that is built (`source.rt`), and one of these: its `tokens`, its
//! `tree`, or its `outcome`, which is `ok` or where it is refused.
#![tactic(auto)]

ghost use Rattle.std.specs.Prelude.{◌≤◌, ◌^◌, length};

mod expressions;
mod items;
mod source;
mod statements;
mod text;
mod tokens;

use source::source_of;
use std::alloc::{AllocError, Global};
use std::{env, io};
use test_rows::{Row, read_rows, verdict};
use tokens::{put_lex_refusal, put_parse_refusal, put_tokens};
use xmt_lex::{Token, lex};
use xmt_parse::parse;

// The most bytes that a source has.
const MOST: usize = 1_048_576;

// Puts the tree of tokens, or `ok` where no tree is asked for.
fn put_tree(
    alloc: Global,
    out: &mut String,
    row: &Row,
    source: &[u8],
    tokens: &[Token],
) -> Result<(), AllocError>
    requires { length source.now ≤ 2 ^ 20 }
{
    match parse(alloc, source, tokens) {
        Ok(program) => {
            if row.text("tree").is_none() {
                return out.push_str("ok");
            }
            for item in program.items.as_slice() {
                items::put_item(alloc, out, item)?;
            }
            Ok(())
        }
        Err(refusal) => put_parse_refusal(alloc, out, refusal),
    }
}

// What is found of a row: its tokens, its tree, whether it is a program, or where it is refused.
fn found(alloc: Global, row: &Row) -> Result<String, AllocError> {
    let mut out = String::new(alloc);
    let source = source_of(alloc, row)?;
    if source.len() > MOST {
        out.push_str("too long")?;
        return Ok(out);
    }
    match lex(alloc, &source) {
        Ok(tokens) => {
            if row.text("tokens").is_some() {
                put_tokens(alloc, &mut out, &tokens)?;
            } else {
                put_tree(alloc, &mut out, row, &source, &tokens)?;
            }
        }
        Err(refusal) => put_lex_refusal(alloc, &mut out, refusal)?,
    }
    Ok(out)
}

// What a row wants.
fn wanted(row: &Row) -> &str {
    match row.text("tokens") {
        Some(tokens) => tokens,
        None => match row.text("tree") {
            Some(tree) => tree,
            None => row.text_or_empty("outcome"),
        },
    }
}

// The line of a row.
fn line_of(alloc: Global, row: &Row) -> Result<String, AllocError> {
    let got = found(alloc, row)?;
    verdict(alloc, row.name(), &got, wanted(row))
}

// Prints the lines of a file, and answers how many rows it has.
fn try_file(rt: &HostRuntime, file: &str) -> io::Result<usize> {
    match read_rows(rt, rt.alloc(), file) {
        Ok(rows) => {
            for row in &rows {
                let line = line_of(rt.alloc(), row)?;
                println!(rt; "{file}: {line}")?;
            }
            Ok(rows.len())
        }
        Err(fault) => {
            println!(rt; "{file}: {fault}")?;
            Ok(0)
        }
    }
}

fn main(rt: HostRuntime) -> io::Result<()> {
    let files: Vec<String> = env::args(&rt)?.skip(1).collect(rt.alloc())?;
    let mut rows = 0usize;
    for file in &files {
        rows = rows.wrapping_add(try_file(&rt, file)?);
    }
    println!(rt; "{rows} rows")
}
