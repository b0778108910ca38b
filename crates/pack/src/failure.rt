//! Why the program stops.

use orders::OrderError;
use std::io;
use thiserror::Error;

/// Why the program gives no answer, or not the whole of it.
#[derive(Debug, Drop, Error)]
pub(crate) enum Failure {
    #[error("usage: pack [ORDER]")]
    Usage,
    #[error("order: {0}")]
    Unread(io::Error),
    #[error("order {0}")]
    Order(OrderError),
    #[error("output: {0}")]
    Output(#[from] io::Error),
    #[error("out: {0}")]
    Out(io::Error),
}
