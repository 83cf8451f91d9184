//! The key of a group that words give.
use super::{SOWN, words_of};
use kad_words::{group_of, lacks_group};
use std::alloc::Global;
use std::test::Fail;

/// A line, the key that it gives, and whether it lacks one.
type Keyed = (&'static str, Option<[u8; 32]>, bool);

fn has(alloc: Global, row: &Keyed) -> Result<bool, Fail> {
    let (line, group, lacks) = row;
    let words = words_of(alloc, line)?;
    Ok(group_of(words.as_slice()) == *group && lacks_group(words.as_slice()) == *lacks)
}

/// Each of these lines has what stands beside it; the first that hasn't is named.
fn all_have(alloc: Global, rows: &[Keyed]) -> Result<(), Fail> {
    for row in rows {
        if !has(alloc, row)? {
            return Err(Fail::new(row.0));
        }
    }
    Ok(())
}

const KEY: Option<[u8; 32]> = Some(SOWN);

const GROUPS: &[Keyed] = &[
    ("lookup --target ID --group SEED", KEY, false),
    ("get --key ID --group SEED", KEY, false),
    ("put --value 35", None, true),
    ("serve --group SEED --group ZEROS", KEY, false),
    ("serve --group ZEROS --group SEED", Some([0; 32]), false),
    ("sim --group SEED", KEY, false),
    ("find --group SEED", KEY, false),
    ("peers --key ID --group ID --group SEED", None, false),
    ("peers --k --group SEED", None, true),
    ("lookup --group", None, true),
    ("lookup --target ID", None, true),
    ("peers", None, true),
    ("serve --receives 1", None, true),
    ("node", None, true),
    ("node --group SEED", KEY, false),
    ("table", None, false),
    ("check", None, false),
    ("mint --seed SEED", None, false),
    ("sim", None, false),
    ("find", None, false),
    ("--group SEED", None, false),
    ("", None, false),
];

#[test]
fn the_key_of_a_group(rt: HostRuntime) -> Result<(), Fail> {
    all_have(rt.alloc(), GROUPS)
}
