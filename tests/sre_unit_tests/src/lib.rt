//! Tests of the crates below the machine: what neither a clause of a contract nor a line of the program shows.
//!
//! They cover the numbers of opcodes and codes, the bits of flags, printed texts, the Unicode tables of std, and each
//! allocation failed in turn. They also cover the memory of the backtrack stack, memoized failures and ends, worked
//! examples over both types of text, emitted bytecode, and how tight patterns are. Answers by bytecode and text are in
//! the files of `sre_cases` and `sre_probes`. The tests are run, not proved.
#![tactic(auto)]

#[cfg(test)]
mod boards;
#[cfg(test)]
mod characters;
#[cfg(test)]
mod ends;
#[cfg(test)]
mod failures;
#[cfg(test)]
mod flags;
#[cfg(test)]
mod growths;
#[cfg(test)]
mod lists;
#[cfg(test)]
mod numbers;
#[cfg(test)]
mod patterns;
#[cfg(test)]
mod refusals;
#[cfg(test)]
mod refused_checks;
#[cfg(test)]
mod samples;
#[cfg(test)]
mod scripts;
#[cfg(test)]
mod shown;
#[cfg(test)]
mod trees;
