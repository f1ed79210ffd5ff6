//! Answers the lines of standard input, as `vx batch` does. Its stored input and output are rows of data: a request a
//! line, and the answer to it.
#![tactic(auto)]

use std::process::ExitCode;
use vx_batch::batch;
use vx_lines::{LoopEnd, MOST_INPUT, StdSink, StdSource};

fn main(rt: HostRuntime) -> ExitCode {
    let mut source = StdSource::new(rt.stdin());
    let mut sink = StdSink::new(rt.stdout());
    match batch(rt.alloc(), MOST_INPUT, &mut source, &mut sink) {
        LoopEnd::Done => ExitCode::from(0),
        LoopEnd::Refused => ExitCode::from(1),
        LoopEnd::ReadFault | LoopEnd::WriteFault | LoopEnd::NoMemory | LoopEnd::InputLimit => {
            ExitCode::from(2)
        }
    }
}
