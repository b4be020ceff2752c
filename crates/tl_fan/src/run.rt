//! What parallel work runs with.

ghost use Rattle.std.specs.Prelude.{◌≤◌};

use std::alloc::Global;

/// What parallel work runs with: one value, which each call lends to those that it makes.
#[derive(Drop)]
pub struct Run<'a, R, G> {
    /// What starts threads.
    pub rt: &'a R,
    /// Where memory comes from.
    pub alloc: Global,
    /// How many pieces of work run at one time, from 1.
    pub workers: u32,
    /// What each piece of work passes once, before it begins.
    pub gate: &'a G,
    ghost some: { 1 ≤ workers },
}
