//! Work that ends early: refused, or for want of memory.
use crate::naive::answer::Refusal;
use crate::naive::report::Stop;
use std::alloc::{AllocError, AllocFailed};

/// Why work ended early.
#[derive(Debug, Drop)]
pub enum Early<R> {
    Refused(R),
    NoMemory(AllocError),
}

impl<R> From<AllocError> for Early<R> {
    fn from(error: AllocError) -> Early<R> {
        Early::NoMemory(error)
    }
}

impl<T: Drop, R> From<AllocFailed<T>> for Early<R> {
    fn from(error: AllocFailed<T>) -> Early<R> {
        Early::NoMemory(AllocError::from(error))
    }
}

impl From<Refusal> for Early<Refusal> {
    fn from(refusal: Refusal) -> Early<Refusal> {
        Early::Refused(refusal)
    }
}

impl From<Stop> for Early<Stop> {
    fn from(stop: Stop) -> Early<Stop> {
        Early::Refused(stop)
    }
}

impl Early<Refusal> {
    /// The same for a run that stops at a place.
    pub(crate) fn at(self, place: usize) -> Early<Stop> {
        match self {
            Early::Refused(refusal) => Early::Refused(refusal.at(place)),
            Early::NoMemory(error) => Early::NoMemory(error),
        }
    }
}

/// What work came to, or why it was refused, if memory lasted.
pub(crate) fn outcome<T, R>(done: Result<T, Early<R>>) -> Result<Result<T, R>, AllocError> {
    match done {
        Ok(value) => Ok(Ok(value)),
        Err(Early::Refused(why)) => Ok(Err(why)),
        Err(Early::NoMemory(error)) => Err(error),
    }
}
