use crate::Cause;
use thiserror::Error;

/// Returns a device that isn't opened, with the cause. Nothing was written.
#[derive(Debug, Drop, Error)]
#[error("{cause}")]
pub struct OpenFault<D> {
    pub disk: D,
    pub cause: Cause,
}
