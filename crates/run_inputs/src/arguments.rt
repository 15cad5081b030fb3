//! The words behind a program's name.

use std::alloc::Global;
use std::env::FillError;
use std::rt::Env;
use std::{env, io};

/// The arguments behind the program's name, which may be any bytes; and no environment.
#[derive(Drop)]
struct BehindName<'a, R> {
    rt: &'a R,
}

impl<'a, R: Env> Env for BehindName<'a, R> {
    ghost use Rattle.std.specs.Io.{WritesAtMost};

    fn arg(&self, i: usize, buf: &mut [u8]) -> Result<usize, FillError> {
        self.rt.arg(i.saturating_add(1), buf)
    }

    fn var(&self, _name: &str, _buf: &mut [u8]) -> Result<usize, FillError> {
        Err(FillError::NotPresent)
    }

    fn var_at(&self, _i: usize, _buf: &mut [u8]) -> Result<usize, FillError> {
        Err(FillError::NotPresent)
    }
}

/// The words behind the program's name. A word that is not UTF-8 is an error; so is want of memory, which is
/// `OutOfMemory`. What words there are no contract of the system says, so this one says nothing of them.
pub fn words_behind_name<R: Env>(rt: &R, alloc: Global) -> io::Result<Vec<String>> {
    let words = env::args(&(BehindName { rt }, alloc))?.collect::<Vec<String>>(alloc)?;
    Ok(words)
}
