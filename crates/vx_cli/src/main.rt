//! The program: it answers the line that its words make, or the lines of standard input.
#![tactic(auto)]

mod job;
mod running;
mod status;
#[cfg(test)]
mod tests;
mod words;
mod writing;

ghost use Rattle.std.specs.Prelude.{◌≡◌, ◌≢◌, ◌↔◌, ◌⊎◌, IfErr, List, ℕ, Bool, ◌^◌, drop};
ghost use Rattle.vx_batch.specs.Fields.{texts};
ghost use Rattle.vx_cli.specs.Runs.{RunsSo};
ghost use Rattle.vx_cli.specs.Statuses.{number_of};
ghost use Rattle.vx_cli.specs.declared.status.Status.{Status};

use crate::running::run;
use std::alloc::Global;
use std::env;
use std::io::ErrorKind;
use std::process::ExitCode;
use vx_lines::{Sink, Source, StdSink, StdSource};

// What the program ends with where taking the words finds no memory, and where a word is refused for another cause.
const NO_MEMORY: u8 = 5;

const NO_WORDS: u8 = 7;

// The words behind the program's name.
fn words_behind_name(arguments: Vec<String>) -> Vec<String>
    ensures { result.items ≡ drop 1 arguments.items }
{
    let mut words = arguments;
    if !words.is_empty() {
        let _ = words.remove(0);
    }
    words
}

// The status to end with, where the words are refused for this cause.
fn refused_words(cause: ErrorKind) -> u8
    ensures no_memory { (result ≡ NO_MEMORY) ↔ (cause ≡ ErrorKind.OutOfMemory) }
    ensures other { (result ≡ NO_WORDS) ↔ (cause ≢ ErrorKind.OutOfMemory) }
{
    if cause == ErrorKind::OutOfMemory {
        NO_MEMORY
    } else {
        NO_WORDS
    }
}

// Does what the words behind the program's name say, and answers the number to end with.
fn exit_number<R: Source, W: Sink>(
    alloc: Global,
    arguments: Vec<String>,
    source: &mut R,
    sink: &mut W,
) -> u8
    ensures { (status : Status) × (result ≡ number_of status) × RunsSo R.left R.faults W.held W.faults W.write_gives
        (texts (drop 1 arguments.items)) status source.old source.new sink.old sink.new }
{
    let words = words_behind_name(arguments);
    run(alloc, &words, source, sink).number()
}

// What the program was started with, the program's name first, or the status to end with.
fn arguments(rt: &HostRuntime) -> Result<Vec<String>, u8>
    ensures { IfErr result (λ status. (status ≡ NO_MEMORY) ⊎ (status ≡ NO_WORDS)) }
{
    match env::args(rt) {
        Ok(all) => all.collect(rt.alloc()).map_err(|_| NO_MEMORY),
        Err(error) => Err(refused_words(error.kind())),
    }
}

fn main(rt: HostRuntime) -> ExitCode {
    let mut source = StdSource::new(rt.stdin());
    let mut sink = StdSink::new(rt.stdout());
    match arguments(&rt) {
        Ok(all) => ExitCode::from(exit_number(rt.alloc(), all, &mut source, &mut sink)),
        Err(status) => ExitCode::from(status),
    }
}
