//! Facts about these devices that no clause states, and each public function once without a failure.

mod failing;
mod files;
mod stops;
mod using;
