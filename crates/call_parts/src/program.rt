//! What a program is called with, and the number that it ends with.
ghost use Rattle.std.specs.Prelude.{◌≡◌, drop, map, string_bytes, IfOk};
ghost use Rattle.std.specs.Process.{exit_status};
ghost use Rattle.call_parts.specs.Program.{number_of};

use crate::status::Status;
use io_edge::NoMemory;
use std::alloc::{AllocError, Global};
use std::env::Args;
use std::process::ExitCode;
use std::{env, io};

/// What a program ends with.
pub fn code_of(ended: Result<Status, NoMemory>) -> ExitCode
    ensures { exit_status result ≡ number_of ended }
{
    ExitCode::from(number_of(ended))
}

/// The number that a program ends with.
fn number_of(ended: Result<Status, NoMemory>) -> u8
    ensures { result ≡ number_of ended }
{
    match ended {
        Ok(status) => status.number(),
        Err(_) => Status::NoMemory.number(),
    }
}

/// The words behind the program's name. Where one is no text there are none.
pub fn words_of(rt: &HostRuntime) -> Result<Vec<String>, NoMemory> {
    match env::args(rt) {
        Ok(args) => behind_the_name(rt.alloc(), args),
        Err(error) if error.kind() == io::ErrorKind::OutOfMemory => Err(AllocError),
        Err(_) => Ok(Vec::new(rt.alloc())),
    }
}

/// All of a process's words but the first, in their order.
fn behind_the_name(alloc: Global, mut args: Args) -> Result<Vec<String>, NoMemory>
    ensures { IfOk result (λ words. words.items ≡ drop 1 args.rest.items) }
{
    let mut words = Vec::new(alloc);
    let _name = args.next();
    for text in args {
        words.push(text)?;
    }
    Ok(words)
}

/// The words of a process as a call takes them, in their order.
pub fn as_words(alloc: Global, texts: &[String]) -> Result<Vec<&str>, NoMemory>
    ensures { IfOk result (λ words. map (λ word. word.now) words.items ≡ map string_bytes texts.now) }
{
    let mut words = Vec::new(alloc);
    for text in texts {
        words.push(text.as_str())?;
    }
    Ok(words)
}
