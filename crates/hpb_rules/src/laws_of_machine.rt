ghost use Rattle.hpb_rules.specs.MachineLaws.{RestIsSound, MachineKeeps, RunIsMoves, RunJoins};
ghost use Rattle.hpb_rules.specs.MachineRows.{Stops};

/// A machine at rest with a history is sound.
pub fn rest_is_sound()
    ensures { RestIsSound }
{}

/// Moves are events and stops. Over moves from a sound machine on, the acknowledged commands are a history and only
/// grow. The commands that a stop may leave are a history that begins with them. Each answer that has left fits them.
pub fn machine_keeps()
    ensures { MachineKeeps }
{}

/// Events one after another are moves.
pub fn run_is_moves()
    ensures { RunIsMoves }
{}

/// Events followed by more have the effect of the events, and then that of the others.
pub fn run_joins()
    ensures { RunJoins }
{}

/// The commands that a stop may leave of two bids: the acknowledged ones, and from the third turn on these or the
/// flight's with them.
pub fn stops()
    ensures { Stops }
{}
