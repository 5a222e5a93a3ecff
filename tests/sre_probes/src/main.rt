//! `sre_probes FILE` answers the probes of FILE, one line each: properties of a case beyond its answer from
//! `sre_cases`. Each line of a file is a test, which is run and not proved (`docs/GATE.md`, "Probes").
#![tactic(auto)]

mod codes;
mod counted;
mod counts;
mod finders;
mod heaps;
mod lines;
mod probe;
mod recipes;
mod shown;
mod steps;
mod tables;

use probe::{Desk, cut, push_probe};
use sre_engine::UniTable;
use sre_lines::line::split_once;
use std::alloc::{AllocError, Global};
use std::env::Args;
use std::io::{self, BufWriter, Write};
use std::test::Fail;
use std::{env, fs};

// The Unicode tables and the desk, which are used for all lines of a file.
struct Bench {
    table: UniTable,
    desk: Desk<Global>,
}

// Custom `Drop`, as that of `Desk`.
impl Drop for Bench {
    fn drop(self) {
        let Bench { table, desk } = self;
        drop((table, desk));
    }
}

// Appends the answer to a line.
fn push_line(
    bench: &mut Bench,
    alloc: Global,
    line: &[u8],
    answer: &mut String,
) -> Result<(), AllocError> {
    match split_once(line, b' ') {
        Some((word, lists)) if word == b"table".as_slice() => {
            tables::push_table(alloc, lists, &mut bench.table, answer)
        }
        Some((word, ranges)) if word == b"digits".as_slice() => {
            tables::push_digits(alloc, ranges, &mut bench.table, answer)
        }
        _ => push_probe(&mut bench.desk, &bench.table, line, answer),
    }
}

// Appends the answer to a line, as a line.
fn push_answer(
    bench: &mut Bench,
    alloc: Global,
    line: &[u8],
    answer: &mut String,
) -> Result<(), AllocError> {
    if push_line(bench, alloc, line, answer).is_err() {
        answer.clear();
        answer.push_str("memory")?;
    }
    answer.push_str("\n")
}

// Writes the answer to a line, if it has one.
fn answer_line<W: Write>(
    bench: &mut Bench,
    alloc: Global,
    line: &[u8],
    out: &mut W,
) -> io::Result<()> {
    if line.is_empty() || line[0] == b'#' {
        return Ok(());
    }
    let mut answer = String::new(alloc);
    match push_answer(bench, alloc, line, &mut answer) {
        Ok(()) => out.write_all(answer.as_bytes()),
        Err(error) => Err(error.into()),
    }
}

// Answers all lines of a file.
fn answer_lines<W: Write>(
    bench: &mut Bench,
    alloc: Global,
    file: &[u8],
    out: &mut W,
) -> io::Result<()> {
    let mut left = Some(file);
    for _ in 0..file.len().saturating_add(1) {
        let Some(lines) = left else {
            return out.flush();
        };
        let (line, others) = cut(lines, b'\n');
        answer_line(bench, alloc, line, out)?;
        left = others;
    }
    out.flush()
}

// Answers all lines of a file, with the tables of ASCII until a line sets other ones.
fn answer_all<W: Write>(alloc: Global, file: &[u8], out: &mut W) -> io::Result<()> {
    let mut bench = Bench {
        table: UniTable::ascii(alloc),
        desk: Desk::new(alloc, alloc),
    };
    answer_lines(&mut bench, alloc, file, out)
}

// The argument after the program's name.
fn argument(mut args: Args) -> Option<String> {
    let _program = args.next();
    args.next()
}

// The file that the argument names.
fn file_of(rt: &HostRuntime) -> Result<Vec<u8>, Fail> {
    match argument(env::args(rt)?) {
        Some(name) => Ok(fs::read(rt, name.as_str())?),
        None => Err("usage: sre_probes FILE".into()),
    }
}

fn main(rt: HostRuntime) -> Result<(), Fail> {
    let file = file_of(&rt)?;
    let mut out = BufWriter::new(rt.alloc(), io::writer(&rt))?;
    answer_all(rt.alloc(), file.as_slice(), &mut out)?;
    Ok(())
}
