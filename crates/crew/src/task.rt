//! A closure that a thread runs where one can be made.

ghost use Rattle.crew.specs.code.Tasks.{WillKeep};

use std::thread;
use std::thread::{Promise, PromisedHandle, Threads};

/// A closure that a thread of its own runs, or that no thread could be made for: then it waits to
/// be called.
pub(crate) enum Task<T, P: Promise<T>, F> {
    Runs(PromisedHandle<T, P>),
    Waits(F),
}

impl<T: Send + Drop + 'static, P: Promise<T> + Drop, F: FnOnce() -> T + Send + 'static> Task<
    T,
    P,
    F,
> {
    /// Starts a thread for the closure, each of whose results keeps the promise.
    pub(crate) fn start<R: Threads>(rt: &R, promise: P, work: F) -> Task<T, P, F>
        requires runs { F.pre work }
        requires keeps { (r : T) → F.post work r → P.kept_by promise r }
        ensures { WillKeep F.pre F.post P.kept_by promise result }
    {
        match thread::spawn_with(rt, promise, work) {
            Ok(handle) => Task::Runs(handle),
            Err(refused) => Task::Waits(refused.value),
        }
    }

    /// Joins the thread, or calls the closure where there is none, and gives its result.
    pub(crate) fn end<R: Threads>(self, rt: &R) -> T
        requires { (p : P) × WillKeep F.pre F.post P.kept_by p self }
        ensures { (p : P) → WillKeep F.pre F.post P.kept_by p self → P.kept_by p result }
    {
        match self {
            Task::Runs(handle) => handle.join(rt),
            Task::Waits(work) => work(),
        }
    }
}
