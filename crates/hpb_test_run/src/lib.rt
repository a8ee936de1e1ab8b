//! Tests of runs over devices: which call of the device each step of an engine makes, and the result if one fails. Also
//! tests of batches, whole checkpoints and sessions.
#![tactic(auto)]

#[cfg(test)]
mod mixed_run;
#[cfg(test)]
mod order_of_calls;
#[cfg(test)]
mod paces;
#[cfg(test)]
mod rows_of_batches;
#[cfg(test)]
mod rows_of_faults;
#[cfg(test)]
mod rows_of_runs;
#[cfg(test)]
mod runs;
#[cfg(test)]
mod sessions;
#[cfg(test)]
mod watching;
