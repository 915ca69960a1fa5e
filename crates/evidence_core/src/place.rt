//! Where evidence is read.
use env_core::Env;
use std::alloc::Global;
use term_core::Context;

/// An environment and a context, with the number of its variables.
#[derive(Drop)]
pub(crate) struct Place<'a> {
    pub(crate) alloc: Global,
    pub(crate) env: &'a Env,
    pub(crate) context: &'a Context,
    pub(crate) variables: u64,
}
