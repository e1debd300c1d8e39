//! Runs worked scripts, each over files in memory, and prints each with how it ended below it. Its standard input lists the scripts, and
//! `stdout` has under each what it has to print, so that a further script is a matter of data alone.
//!
//! A line of the input that begins with `=== ` is the title of a row. What stands below it:
//!
//! | Line | What it says |
//! |---|---|
//! | `> TEXT` | a line of the script |
//! | `* N TEXT` | N such lines |
//! | `+ N TEXT` | the text N times, with no end of a line |
//! | `file NAME HEX` | a file that is there, with these bytes |
//! | `file NAME` | a file that is there, with the bytes that a line `file NAME HEX` above all titles gives it |
//! | `show NAME` | a file whose bytes are printed in the end |
//! | `word TEXT` | a word of the command, in place of `xrs s.xrs` |
//! | `no word` | the command has none |
//! | `fails store N` | the Nth call of the store fails, those that put the files and the script counted too |
//! | `fails output N`, `fails error N` | so of the two sinks |
//!
//! All other lines are comments.
#![tactic(auto)]

mod failing;
mod hexadecimal;
mod row;

use crate::row::Row;
use anyhow::Result;
use std::io::{BufWriter, Write, writer};

// Whether a line of a row stands above what the row prints: the script, the words of the command, and the calls that fail.
fn is_shown(line: &str) -> bool {
    line.starts_with("> ")
        || line.starts_with("* ")
        || line.starts_with("+ ")
        || line.starts_with("word ")
        || line == "no word"
        || line.starts_with("fails ")
}

fn main(rt: HostRuntime) -> Result<()> {
    let alloc = rt.alloc();
    let mut out = BufWriter::new(alloc, writer(&rt))?;
    let mut above = Row::new(alloc);
    let mut row: Option<Row> = None;
    for line in rt.lines(alloc) {
        let line = line?;
        let line = line.as_str();
        if line.starts_with("=== ") {
            if let Some(ended) = &row {
                out.write_all(&ended.end(&rt, alloc)?)?;
            }
            writeln!(out, "{line}")?;
            row = Some(Row::new(alloc));
        } else {
            match &mut row {
                Some(row) => {
                    if is_shown(line) {
                        writeln!(out, "{line}")?;
                    }
                    row.take(alloc, line, &above)?
                }
                None => above.take(alloc, line, &Row::new(alloc))?,
            }
        }
    }
    if let Some(ended) = &row {
        out.write_all(&ended.end(&rt, alloc)?)?;
    }
    out.flush()?;
    Ok(())
}
