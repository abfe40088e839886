//! The program: loads the store of a file where one is named, answers the command lines of its standard
//! input on its standard output, and saves the store where a file is named; or does so over a store whose every accepted
//! edit it keeps in a journal.
#![tactic(auto)]

mod ending;
mod system_files;
mod system_home;

ghost use Rattle.std.specs.Prelude.{IfErr, OnOk, option_map, string_bytes};
ghost use Rattle.sf_run.specs.Files.{EndsBy, IsSaved};

use ending::Ending;
use sf_options::{Options, OptionsFault, options};
use sf_run::{FilesFault, RunFiles, run_between};
use std::alloc::Global;
use std::fs::File;
use std::io::{Read, Write};
use std::process::ExitCode;
use std::rt::{Env, Files};
use std::{env, io};
use system_files::SystemFiles;
use system_home::run_stored;

/// Why the system's words could not be had.
fn arguments_fault(error: &io::Error) -> Ending {
    if error.kind() == io::ErrorKind::OutOfMemory {
        Ending::Words(OptionsFault::Memory)
    } else {
        Ending::Arguments
    }
}

/// What the words of the command line ask for.
fn asked(rt: &(impl Env + AllocGlobal)) -> Result<Options, Ending> {
    let arguments = arguments_of(rt)?;
    asked_by(rt.alloc(), arguments.as_slice())
}

/// The words of the command line.
fn arguments_of(rt: &(impl Env + AllocGlobal)) -> Result<Vec<String>, Ending> {
    let arguments = env::args(rt).map_err(|error| arguments_fault(&error))?;
    match arguments.collect::<Vec<String>>(rt.alloc()) {
        Ok(arguments) => Ok(arguments),
        Err(_) => Err(Ending::Words(OptionsFault::Memory)),
    }
}

/// What these words ask for.
fn asked_by(alloc: Global, arguments: &[String]) -> Result<Options, Ending> {
    let Ok(words) = arguments
        .iter()
        .map(|word| word.as_str())
        .collect::<Vec<&str>>(alloc)
    else {
        return Err(Ending::Words(OptionsFault::Memory));
    };
    options::asked(alloc, words.as_slice()).map_err(Ending::Words)
}

/// The run between the files that the words of the command line name: one to load, and one to save to.
fn run_files<F: RunFiles, R: Read, W: Write>(
    alloc: Global,
    files: &mut F,
    asked: &Options,
    input: &mut R,
    output: &mut W,
) -> Result<(), FilesFault>
    ensures ok { OnOk result (IsSaved (option_map string_bytes asked.now.load) (option_map string_bytes asked.now.save)
        (F.calls files.old) (F.calls files.new)
        (R.remaining input.old) (R.remaining input.new) (W.contents output.old) (W.contents output.new)) }
    ensures fault { IfErr result (λ fault. EndsBy fault (option_map string_bytes asked.now.load) (option_map string_bytes asked.now.save)
        (F.calls files.old) (F.calls files.new)
        (R.remaining input.old) (R.remaining input.new) (W.contents output.old) (W.contents output.new)) }
{
    let load = asked.load.as_deref();
    let save = asked.save.as_deref();
    run_between(alloc, files, load, save, input, output)
}

/// The whole run.
fn run(
    rt: &(impl Files<File = File> + Env + Input + Print + Eprint + AllocGlobal),
) -> Result<(), Ending> {
    let asked = asked(rt)?;
    run_asked(rt, &asked)
}

/// The run that is asked for.
fn run_asked(
    rt: &(impl Files<File = File> + Env + Input + Print + Eprint + AllocGlobal),
    asked: &Options,
) -> Result<(), Ending> {
    let is_named = asked.load.is_some() || asked.save.is_some();
    match &asked.store {
        Some(path) if !is_named => run_stored(
            rt,
            rt.alloc(),
            path.as_str(),
            asked.keep,
            &mut rt.reader(),
            io::writer(rt),
        ),
        None if !asked.keep => run_unstored(rt, asked),
        _ => Err(Ending::Options),
    }
}

/// The run between files of the system.
fn run_unstored(
    rt: &(impl Files<File = File> + Input + Print + AllocGlobal),
    asked: &Options,
) -> Result<(), Ending> {
    run_files(
        rt.alloc(),
        &mut SystemFiles::new(rt, rt.alloc()),
        asked,
        &mut rt.reader(),
        &mut io::writer(rt),
    )
    .map_err(Ending::from)
}

fn main(rt: HostRuntime) -> ExitCode {
    match run(&rt) {
        Ok(()) => ExitCode::SUCCESS,
        Err(ending) => {
            // The output may be what failed: then the status alone tells.
            let _ = rt.print(&ending);
            ExitCode::from(ending.status())
        }
    }
}
