//! Tests of the engine, the recipes and the lines: what neither a clause of a contract nor a line of a program shows.
//!
//! They cover the names at the engine's root, the digits of CPython, the example of the recipes, and writes that fail.
//! Answers by bytecode and text are in the files of `sre_cases` and `sre_probes`. Laws over several calls are proved in
//! `sre_laws`.
#![tactic(auto)]

#[cfg(test)]
mod digits;
#[cfg(test)]
mod fakes;
#[cfg(test)]
mod names;
#[cfg(test)]
mod patterns;
#[cfg(test)]
mod recipes;
#[cfg(test)]
mod writes;
