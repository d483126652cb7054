//! Why nothing was replayed.
use script::script::ScriptError;
use std::alloc::AllocError;
use std::io;
use thiserror::Error;

/// Why the program ends with status 1.
#[derive(Debug, Drop, Error)]
pub enum ReplayError {
    /// A line of the script is wrong.
    #[error(transparent)]
    Script(#[from] ScriptError),
    /// The program was given an argument that it does not take.
    #[error("unknown argument: {0} (a script is read from standard input; --help says more)")]
    Argument(String),
    /// There is no memory for the calls.
    #[error("out of memory")]
    OutOfMemory(#[from(alloc)] AllocError),
    /// Reading or writing failed.
    #[error(transparent)]
    Io(#[from] io::Error),
}
