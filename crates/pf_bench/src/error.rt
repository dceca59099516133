//! Why a run prints no line.

use pf_base::PathError;
use pf_grid::GridError;
use pf_matrix::MatrixFormatError;
use pf_tables::TableError;
use std::alloc::{AllocError, AllocFailed};
use thiserror::Error;

/// Why a run prints no line.
#[derive(Clone, Copy, Debug, Error)]
pub enum BenchError {
    #[error("usage: pf_bench JOB SIZE REPEATS, with SIZE from 1 and REPEATS from 0")]
    Usage,
    #[error("size too large")]
    TooLarge,
    #[error("no such job")]
    UnknownJob,
    #[error("out of memory")]
    OutOfMemory,
    #[error("write failed")]
    WriteFailed,
    #[error("{0}")]
    Path(#[from] PathError),
    #[error("{0}")]
    Table(#[from] TableError),
    #[error("{0}")]
    Matrix(#[from] MatrixFormatError),
    #[error("{0}")]
    Grid(#[from] GridError),
}

impl BenchError {
    /// The exit status that tells of it.
    pub fn status(self) -> u8 {
        match self {
            BenchError::UnknownJob => 2,
            _ => 1,
        }
    }
}

impl From<AllocError> for BenchError {
    fn from(_e: AllocError) -> BenchError {
        BenchError::OutOfMemory
    }
}

impl<T: Drop> From<AllocFailed<T>> for BenchError {
    fn from(_e: AllocFailed<T>) -> BenchError {
        BenchError::OutOfMemory
    }
}
