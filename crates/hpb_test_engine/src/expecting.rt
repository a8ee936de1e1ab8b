//! Whether the calls of an engine give the results of a row.

use crate::calls::{Turn, commit, offer, take_step, take_turn};
use crate::letters::{list_of, one};
use hpb_disk::Disk;
use hpb_engine::{Engine, Fault, Rest, Weight};
use hpb_rules::{Answer, Letter, Letters};

/// Whether a turn of a commit answers this, and no answer leaves with it.
pub fn turns<D: Disk + Drop>(engine: &mut Engine<D>, wanted: Result<Turn, Fault>) -> bool {
    let (turn, answers) = take_turn(engine);
    turn == wanted && answers.len() == 0
}

/// Whether a turn of a commit is the last of its batch, and these answers leave with it.
pub fn turns_last<D: Disk + Drop>(engine: &mut Engine<D>, wanted: &[Answer]) -> bool {
    let (turn, answers) = take_turn(engine);
    turn == Ok(Turn::Done) && answers.as_slice() == wanted
}

/// Whether a step of a checkpoint answers this.
pub fn steps<D: Disk + Drop>(engine: &mut Engine<D>, wanted: Result<Rest, Fault>) -> bool {
    take_step(engine) == wanted
}

/// Whether letters are offered, have their turns, and have these answers.
pub fn commits<D: Disk + Drop>(
    engine: &mut Engine<D>,
    letters: Letters,
    wanted: &[Answer],
) -> bool {
    let answers = commit(engine, letters);
    answers.as_slice() == wanted
}

/// Whether a letter alone has this answer.
pub fn commits_one<D: Disk + Drop>(engine: &mut Engine<D>, wanted: Answer) -> bool {
    commits(engine, one(wanted.letter), &[wanted])
}

/// Whether letters that are offered are put in flight, so that no answer leaves and none comes back.
pub fn takes<D: Disk + Drop>(engine: &mut Engine<D>, letters: Letters) -> bool {
    let offered = offer(engine, letters);
    offered.weighed == Weight::New
        && offered.begun == Weight::New
        && offered.answers.len() == 0
        && offered.back.len() == 0
}

/// Whether letters that are offered have these answers at once.
pub fn answers_at_once<D: Disk + Drop>(
    engine: &mut Engine<D>,
    letters: Letters,
    wanted: &[Answer],
) -> bool {
    let offered = offer(engine, letters);
    offered.weighed == Weight::Old
        && offered.begun == Weight::Old
        && offered.answers.as_slice() == wanted
        && offered.back.len() == 0
}

/// Whether letters that are offered are handed back for this reason.
pub fn hands_back<D: Disk + Drop>(
    engine: &mut Engine<D>,
    letters: &[Letter],
    reason: Weight,
) -> bool {
    let offered = offer(engine, list_of(letters));
    offered.weighed == reason
        && offered.begun == reason
        && offered.answers.len() == 0
        && offered.back.as_slice() == letters
}
