// Calls each export of `sre_c`, since a program contains only what it calls (`tools/unproved.py`).
fn main(rt: HostRuntime) -> Result<(), std::alloc::AllocError> {
    let alloc = rt.alloc();
    sre_abi();
    let mut table = SreTable {
        lower: &[],
        upper: &[],
        alnum: &[],
        digits: &[],
        error: 0,
        checked: false,
    };
    sre_check_table(alloc, &mut table);
    let hints = types::SreHints {
        width: 0,
        prefix: 0,
        prefix_skip: 0,
        longest_lookbehind: 0,
        asked_from: 0,
        has_width: false,
        has_prefix: false,
        literal: false,
        first_set: false,
        refers: false,
    };
    let mut code = SreCode {
        words: &[],
        table: &table,
        place: 0,
        error: 0,
        hints,
        checked: false,
    };
    sre_check_code(alloc, &mut code);
    let mut steps = 0;
    sre_step_bound(alloc, &code, 0, &mut steps);
    sre_begins(alloc, &code, &mut [false; 1], &mut false);
    let asked = SreAsked {
        start: 0,
        end: 0,
        steps: 0,
        search: false,
        match_all: false,
        must_advance: false,
        non_boundary: false,
    };
    let mut found = SreFound {
        start: 0,
        end: 0,
        last_index: 0,
        marks: 0,
        steps: 0,
    };
    let mut walked = SreWalked {
        count: 0,
        start: 0,
        steps: 0,
        steps_before: 0,
        must_advance: false,
    };
    let mut rows = [0; 2];
    sre_answer_bytes(alloc, &code, &[], &asked, &mut found, &mut rows);
    sre_answer_utf8(alloc, &code, &[], &asked, &mut found, &mut rows);
    sre_answer_points(alloc, &code, &[], &asked, &mut found, &mut rows);
    sre_answer_units(alloc, &code, &[], &asked, &mut found, &mut rows);
    sre_walk_bytes(alloc, &code, &[], &asked, 1, &mut rows, &mut walked);
    sre_walk_utf8(alloc, &code, &[], &asked, 1, &mut rows, &mut walked);
    sre_walk_points(alloc, &code, &[], &asked, 1, &mut rows, &mut walked);
    sre_walk_units(alloc, &code, &[], &asked, 1, &mut rows, &mut walked);
    let mut pattern = SrePattern {
        code,
        kept: sre_handle::KeptSlot::empty(),
        is_kept: false,
        reads_utf8: false,
    };
    sre_pattern_answer_bytes(alloc, &mut pattern, &[], &asked, &mut found, &mut rows);
    sre_pattern_answer_utf8(alloc, &mut pattern, &[], &asked, &mut found, &mut rows);
    sre_pattern_walk_bytes(alloc, &mut pattern, &[], &asked, 1, &mut rows, &mut walked);
    sre_pattern_walk_utf8(alloc, &mut pattern, &[], &asked, 1, &mut rows, &mut walked);
    sre_pattern_free(alloc, &mut pattern);
    let SrePattern {
        code: _,
        kept,
        is_kept: _,
        reads_utf8: _,
    } = pattern;
    kept.discard();
    Ok(())
}
