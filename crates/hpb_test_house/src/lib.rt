//! Tests of a house with all its threads.
#![tactic(auto)]

#[cfg(test)]
mod devices;
#[cfg(test)]
mod harness;
#[cfg(test)]
mod hold;
#[cfg(test)]
mod late;
#[cfg(test)]
mod rows_of_answers;
#[cfg(test)]
mod rows_of_checkpoints;
#[cfg(test)]
mod rows_of_counts;
#[cfg(test)]
mod rows_of_faults;
#[cfg(test)]
mod rows_of_points;
#[cfg(test)]
mod script;
#[cfg(test)]
mod turns;
