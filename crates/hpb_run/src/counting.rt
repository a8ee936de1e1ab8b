//! When a checkpoint is due.
ghost use Rattle.std.specs.Prelude.{◌≡◌};
ghost use Rattle.hpb_run.specs.Standing.{commits_after, is_due};

/// Whether a checkpoint is due after `commits` commits: if there were at least `every` of them. With `every` 0 none is
/// ever due.
pub(crate) fn is_checkpoint_due(every: u32, commits: u32) -> bool
    ensures { result ≡ is_due every commits }
{
    every != 0 && commits >= every
}

/// How many commits there have been since the last checkpoint, with one more. That one found `before` commands accepted
/// and left `after`; it counts only if it accepted some.
pub(crate) fn count_commit(commits: u32, before: u32, after: u32) -> u32
    ensures { result ≡ commits_after commits before after }
{
    if before < after && commits < u32::MAX {
        commits + 1
    } else {
        commits
    }
}
