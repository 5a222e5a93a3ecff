//! `PATTERN_FILE TEXT_FILE TIMES OPTIONS`: what peers.cc does, by the kit's `regex`. A pattern that it refuses prints
//! nothing.
#![tactic(auto)]

use regex::Regex;
use std::{env, fs, io};

fn main(rt: HostRuntime) -> io::Result<()> {
    let mut args = env::args(&rt)?;
    let _program = args.next();
    let (Some(pattern), Some(text), Some(times)) = (args.next(), args.next(), args.next()) else {
        return Ok(());
    };
    let pattern = fs::read(&rt, pattern.as_str())?;
    let text = fs::read(&rt, text.as_str())?;
    let Ok(source) = str::from_utf8(pattern.as_slice()) else {
        return Ok(());
    };
    let Ok(string) = str::from_utf8(text.as_slice()) else {
        return Ok(());
    };
    let Ok(times) = times.as_str().parse::<u32>() else {
        return Ok(());
    };
    let Ok(regex) = Regex::new(rt.alloc(), source) else {
        return Ok(());
    };
    let mut matcher = regex.matcher(rt.alloc())?;
    let mut count: u64 = 0;
    for _ in 0..times {
        count = 0;
        for _ in matcher.find_iter(string) {
            count = count.wrapping_add(1);
        }
    }
    println!(rt; "{count}")?;
    Ok(())
}
