//! `sre_cases FILE` answers the cases of FILE, one line each.
#![tactic(auto)]

use sre_lines::cases::CaseFault;
use sre_lines::program::{run, tell};
use std::io::BufWriter;
use std::process::ExitCode;
use std::{env, fs, io};

fn main(rt: HostRuntime) -> ExitCode {
    let mut faults = rt.stderr();
    let ending = match BufWriter::new(rt.alloc(), io::writer(&rt)) {
        Ok(mut out) => run(
            rt.alloc(),
            env::args(&rt),
            |name| fs::read(&rt, name),
            &mut out,
            &mut faults,
        ),
        Err(_) => tell(CaseFault::NoMemory, "FILE", &mut faults),
    };
    ending.status()
}
