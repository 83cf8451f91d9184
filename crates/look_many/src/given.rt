//! What several lookups are given.
use crate::found::ManySetting;
use crate::job::Job;
use node_serve::{Lasting, ServeSetting};
use std::alloc::Global;

/// What a node that makes several lookups goes by: the runtime, the allocator, what it answers by, the check of what an answer
/// reports, and the seal of the group that it is of.
#[derive(Drop)]
pub struct Given<'a, R, C, G> {
    pub rt: &'a R,
    pub alloc: Global,
    pub server: &'a ServeSetting,
    pub check: &'a C,
    pub seal: &'a G,
}

/// What is wanted of it: the jobs, how each lookup goes, and how long the node goes on.
#[derive(Clone, Copy)]
pub struct Wanted<'a> {
    pub jobs: &'a [Job],
    pub setting: ManySetting,
    pub lasting: Lasting,
}
