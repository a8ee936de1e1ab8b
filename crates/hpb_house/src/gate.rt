//! The points that a worker passes, and the gate to which it reports them.

use std::sync::Wait;

/// A point that a worker passes, outside the lock.
#[derive(Clone, Copy, Debug, PartialEq, Eq)]
pub enum Point {
    /// The committer has gathered letters, or found none.
    Gathered,
    /// It has made a turn of a commit, and more turns are to come.
    BetweenTurns,
    /// It has finished a commit: the answers are published.
    Committed,
    /// The checkpointer has written the page of this number, from 0 to 3.
    Page(u8),
    /// It has retired a frame.
    Retired,
    /// The checkpointer ends, since a call of the device has failed.
    Failed,
}

/// Takes the workers' reports of the points that they pass. It is called outside the lock, and may wait.
pub trait Gate {
    /// A worker has come to this point, and goes on when this call returns.
    fn at<R: Wait>(&self, rt: &R, point: Point);
}

impl<G: Gate> Gate for &G {
    fn at<R: Wait>(&self, rt: &R, point: Point) {
        (**self).at(rt, point);
    }
}

/// The gates of the two workers, each with a type of its own.
#[derive(Drop)]
pub struct Gates<C, G> {
    /// The committer's.
    pub commits: C,
    /// The checkpointer's.
    pub checkpoints: G,
}

/// A gate that lets every worker pass.
#[derive(Clone, Copy, Debug)]
pub struct OpenGate;

impl Gate for OpenGate {
    fn at<R: Wait>(&self, _rt: &R, _point: Point) {}
}
