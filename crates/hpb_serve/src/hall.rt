//! The parts of a house that all its sessions share.

use crate::door::Door;
use std::alloc::Global;

/// What every session of a house is given.
#[derive(Drop)]
pub(crate) struct Hall<'a, V> {
    pub(crate) alloc: Global,
    pub(crate) door: &'a Door,
    pub(crate) watch: &'a V,
}
