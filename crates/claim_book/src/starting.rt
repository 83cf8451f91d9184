//! How a book starts, and what it gathers at its end.
ghost use Rattle.std.specs.Prelude.{◌≡◌, ◌≤◌, ◌<◌, ◌++◌, ◌∷◌, [], length, take, map, IfOk, OnOk, get_or, ℕ, vec_len, vec_capacity};
ghost use Rattle.std.specs.List.{All};
ghost use Rattle.std.specs.List.Sorted.{IsStrictlySortedBy};
ghost use Rattle.kad_base.specs.Limits.{max_path_contacts};
ghost use Rattle.kad_base.specs.Contacts.{IsUsable};
ghost use Rattle.kad_distance.specs.Order.{closeness};
ghost use Rattle.claim_book.specs.declared.path.Path.{Path};
ghost use Rattle.claim_book.specs.Legal.{seeded};
ghost use Rattle.claim_book.specs.Claims.{IsMap};
ghost use Rattle.claim_book.specs.Index.{IsEmptyPath, IsPaths};

use crate::claim_map::{Claims, is_crowded, make_place, mark_taken};
use crate::path::{Path, add_one, new_path};
use crate::types::{Entry, Setting};
use kad_base::{Contact, Contacts, List, NoMemory};
use std::alloc::Global;

/// So many paths that have nothing.
pub(crate) fn new_paths(alloc: Global, count: u8) -> Result<Vec<Path>, NoMemory>
    ensures len { IfOk result (λ paths. length paths.items ≡ count) }
    ensures empty { IfOk result (λ paths. All IsEmptyPath paths.items) }
{
    let mut paths = Vec::with_capacity(alloc, count as usize)?;
    for _ in 0..count {
        let path = new_path(alloc)?;
        paths.push(path)?;
    }
    Ok(paths)
}

/// Deals the seeds to the paths in turn, in a journal that has room for them, and leaves out those whose host crowds their
/// path.
pub(crate) fn seed(
    journal: &mut Vec<Entry>,
    claims: &mut Claims,
    paths: &mut Vec<Path>,
    setting: &Setting,
    seeds: &[Contact],
) -> Result<(), NoMemory>
    requires some_path { 0 < setting.now.paths }
    requires few { length seeds.now ≤ setting.now.k }
    requires small { setting.now.k < max_path_contacts }
    requires in_order { IsStrictlySortedBy (closeness setting.now.target) seeds.now }
    requires usable { All (IsUsable setting.now.own) seeds.now }
    requires empty { journal.old.items ≡ [] }
    requires room { length seeds.now ≤ vec_capacity journal.old }
    requires none_claimed { IsMap setting.now [] claims.old }
    requires none_kept { IsPaths setting.now [] paths.old.items }
    ensures items { OnOk result (journal.new.items ≡ seeded setting.now.per_address
        setting.now.paths seeds.now) }
    ensures room { vec_capacity journal.old ≤ vec_capacity journal.new }
    ensures claims { OnOk result (IsMap setting.now
        (seeded setting.now.per_address setting.now.paths seeds.now) claims.new) }
    ensures paths { OnOk result (IsPaths setting.now
        (seeded setting.now.per_address setting.now.paths seeds.now) paths.new.items) }
{
    for (i, contact) in seeds.iter().enumerate() {
        let path = (i % setting.paths as usize) as u8;
        if is_crowded(claims, setting.per_address, path, contact) {
            continue;
        }
        let place = make_place(claims, setting, path, contact)?;
        mark_taken(claims, setting, path, place, contact);
        add_one(&mut paths[path as usize], setting, contact);
        put_seed(
            journal,
            Entry::Seed {
                path,
                contact: *contact,
            },
        );
    }
    Ok(())
}

/// Appends a seed where there is room.
fn put_seed(journal: &mut Vec<Entry>, entry: Entry)
    requires { vec_len journal.old < vec_capacity journal.old }
    ensures items { journal.new.items ≡ journal.old.items ++ entry ∷ [] }
    ensures room { vec_capacity journal.old ≤ vec_capacity journal.new }
{
    match journal.push(entry) {
        Ok(()) => {}
        Err(_) => unreachable!(),
    }
}

/// The k closest contacts of each path that were not lost.
pub(crate) fn nearest_lists(
    alloc: Global,
    paths: &[Path],
    k: usize,
) -> Result<Vec<Contacts>, NoMemory>
    ensures { IfOk result (λ lists. lists.items ≡ map (λ x. take k x.near.items) paths.now) }
{
    let mut lists = Vec::with_capacity(alloc, paths.len())?;
    for path in paths {
        let list = List::from_slice(alloc, nearest(path.near.as_slice(), k))?;
        lists.push(list)?;
    }
    Ok(lists)
}

/// The first k.
fn nearest(near: &[Contact], k: usize) -> &[Contact]
    ensures { result.now ≡ take k near.now }
{
    if k >= near.len() {
        return near;
    }
    &near[..k]
}
