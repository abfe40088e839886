//! The program: reads the file of a store from its standard input, and draws a map of it on its standard
//! output.
#![tactic(auto)]

mod ending;
mod running;

use ending::Ending;
use running::draw_from;
use sf_picture::{Asked, AskedFault, options};
use std::process::ExitCode;
use std::rt::Env;
use std::{env, io};

/// Why the system's words could not be had.
fn arguments_fault(error: &io::Error) -> Ending {
    if error.kind() == io::ErrorKind::OutOfMemory {
        Ending::Words(AskedFault::Memory)
    } else {
        Ending::Arguments
    }
}

/// What the words of the command line ask for.
fn asked(rt: &(impl Env + AllocGlobal)) -> Result<Asked, Ending> {
    let alloc = rt.alloc();
    let arguments = env::args(rt).map_err(|error| arguments_fault(&error))?;
    let Ok(arguments) = arguments.collect::<Vec<String>>(alloc) else {
        return Err(Ending::Words(AskedFault::Memory));
    };
    let Ok(words) = arguments
        .iter()
        .map(|word| word.as_str())
        .collect::<Vec<&str>>(alloc)
    else {
        return Err(Ending::Words(AskedFault::Memory));
    };
    options::asked(alloc, words.as_slice()).map_err(Ending::Words)
}

/// The whole run.
fn run(rt: &(impl Env + Input + Print + AllocGlobal)) -> Result<(), Ending> {
    let alloc = rt.alloc();
    let Asked { choice, width } = asked(rt)?;
    let mut input = rt.reader();
    let mut output = io::writer(rt);
    draw_from(alloc, &mut input, &choice, width, &mut output).map_err(Ending::from)
}

fn main(rt: HostRuntime) -> ExitCode {
    match run(&rt) {
        Ok(()) => ExitCode::SUCCESS,
        Err(ending) => {
            // Where nothing can be told, the status alone tells.
            let _ = ending.tell(&rt);
            ExitCode::from(ending.status())
        }
    }
}
