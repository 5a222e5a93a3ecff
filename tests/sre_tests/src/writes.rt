//! Writes that fail: what the writer then holds.

use crate::fakes::FailsOnce;
use sre_lines::cases::{CaseFault, run_cases, write_fault};
use std::alloc::Global;
use std::io::ErrorKind;
use std::test::Fail;

const FILE: &[u8] = b"check -\ncheck -\n\ncheck -\nnothing\n";

const ANSWERS: &[u8] = b"refused\nrefused\nrefused\n";

// Whether a run ends like this, and leaves so many bytes of the answers, if the writer fails after a number of bytes.
fn leaves(alloc: Global, room: usize, fault: ErrorKind, end: CaseFault, kept: usize) -> bool {
    let mut out = FailsOnce::new(alloc, room, fault);
    let ran = run_cases(alloc, FILE, &mut out);
    ran == Err(end) && Some(out.bytes()) == ANSWERS.get(..kept)
}

// A writer that fails after any number of bytes, within an answer too, holds these and nothing else. An interrupted
// write is tried again.
#[test]
fn nothing_is_written_after_a_failed_write(rt: HostRuntime) {
    let (failed, stopped) = (CaseFault::OutputFailed, CaseFault::NotACase(5));
    for room in 0..ANSWERS.len() {
        for fault in [ErrorKind::Other, ErrorKind::WriteZero] {
            assert!(rt;
                leaves(rt.alloc(), room, fault, failed, room),
                "after {room}"
            );
        }
        let fault = ErrorKind::Interrupted;
        assert!(rt;
            leaves(rt.alloc(), room, fault, stopped, ANSWERS.len()),
            "after {room}"
        );
    }
}

// Whether the line of a fault is cut after a number of bytes if the writer fails there.
fn is_cut(alloc: Global, line: &[u8], room: usize) -> bool {
    let mut full = FailsOnce::new(alloc, room, ErrorKind::Other);
    let failure = write_fault(&CaseFault::NotACase(u64::MAX), "x", &mut full);
    failure == Err(CaseFault::OutputFailed) && Some(full.bytes()) == line.get(..room)
}

#[test]
fn lines_of_faults_are_cut_where_a_write_fails(rt: HostRuntime) -> Result<(), Fail> {
    let line = b"line 18446744073709551615: not a case\n".as_slice();
    let mut out = Vec::new(rt.alloc());
    assert!(rt; write_fault(&CaseFault::NotACase(u64::MAX), "x", &mut out) == Ok(()));
    assert!(rt; out.as_slice() == line);
    for room in 0..line.len() {
        assert!(rt; is_cut(rt.alloc(), line, room), "after {room}");
    }
    Ok(())
}
