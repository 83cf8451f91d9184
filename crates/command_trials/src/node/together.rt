//! Two paths that settle at once: the checks of their reports meet.
use crate::node::TWO_LINES;
use crate::node::paths::TWO_PATHS;
use crate::node::trial::Outside::{Answers, Names};
use crate::node::trial::{SILENT, Trial, meets};
use std::test::Fail;

/// Both answers come at one moment, so both reports are settled in one round. A lookup that settles one path after the
/// other fails here.
#[test]
fn two_checks_of_a_lookup_run_at_once(rt: HostRuntime) -> Result<(), Fail> {
    const TRIAL: &Trial<'static> = &Trial {
        words: TWO_PATHS,
        input: TWO_LINES,
        outside: &[
            Names(10, 1, 3),
            Names(10, 2, 4),
            Answers(20, 3),
            Answers(20, 4),
        ],
        text: "\
0000000000000000000000000000000000000001 127.0.0.1:6001\n\
0000000000000000000000000000000000000002 127.0.0.1:6002\n\
0000000000000000000000000000000000000003 127.0.0.1:6003\n\
0000000000000000000000000000000000000004 127.0.0.1:6004\n\
found 4 asked 4 failed 0 turned 0\n",
        ..SILENT
    };
    meets(&rt, TRIAL)
}
