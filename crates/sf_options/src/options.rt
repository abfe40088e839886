//! The words of the program's command line, read.
ghost use Rattle.std.specs.Prelude.{◌≡◌, ℕ, List, map, codes, IfOk, string_bytes};
ghost use Rattle.std.specs.Option.{option_map};
ghost use Rattle.clap.specs.Words.{app_of, found_of, first_value, FailsBy};
ghost use Rattle.sf_options.specs.Options.{program, two_files, program_matches, program_faults, given, with_version, IsRefusedBy};

use super::asked::{Options, OptionsFault};
use clap::error::ErrorKind;
use clap::{Arg, ArgAction, ArgMatches, Command, Error};
use std::alloc::{AllocError, Global};

/// What the program is.
const ABOUT: &str =
    "A store of vector map features in named layers, where every edit can be undone exactly.\nReads a line of a command at a time from standard input, and answers each on standard output.";

/// The version, with the toolchain that proves and builds it.
const VERSION: &str = "0.1.0 (rattle-kit-13f)";

/// An example, and the commands by their words.
const EXAMPLE_AND_COMMANDS: &str = "Examples:
  sfstore --load parcels.sfs --save parcels.sfs < edits
  sfstore --store parcels.sfs < edits

Commands, one on a line; `man sfstore` and docs/use/CONSOLE.md have their answers:
  layer add|drop|rename|move   column add|drop   layers   columns   undo   redo
  add   addhex   delete   replace   vertex insert|move|remove   set   unset   save
  rule add|drop   rules   show   get   find   check   hex   box   simple
  area   length   distance   relate   match   query   join

A line may begin with the editor who gives it, from @1 to @255: @2 undo.";

/// The command with its version, and with its texts for the user, which change nothing of what it takes.
fn described<'a>(command: Command<'a>) -> Command<'a>
    ensures { app_of result ≡ with_version (app_of command.entry) }
{
    command
        .version(VERSION)
        .about(ABOUT)
        .after_help(EXAMPLE_AND_COMMANDS)
}

/// The command with the options that load and save a file.
fn with_files<'a>(alloc: Global) -> Result<Command<'a>, AllocError>
    ensures { IfOk result (λ command. app_of command ≡ two_files) }
{
    let load = Arg::new(alloc, "load")
        .long("load")
        .value_name("FILE")
        .help("Loads the store of this file before the first line");
    let save = Arg::new(alloc, "save")
        .long("save")
        .value_name("FILE")
        .help("Saves the store to this file after the last line");
    described(Command::new(alloc, "sfstore"))
        .arg(load)?
        .arg(save)
}

/// The command: three options, each with a file, and a flag.
fn command<'a>(alloc: Global) -> Result<Command<'a>, AllocError>
    ensures { IfOk result (λ command. app_of command ≡ program) }
{
    let store = Arg::new(alloc, "store")
        .long("store")
        .value_name("FILE")
        .help(
            "Keeps every accepted edit in FILE.journal before it is answered, and saves to FILE at the end",
        );
    let keep = Arg::new(alloc, "keep")
        .long("keep")
        .action(ArgAction::SetTrue)
        .help("With --store: leaves the edits in the journal at the end, and saves nothing");
    with_files(alloc)?.arg(store)?.arg(keep)
}

/// What clap makes of the words.
fn matches_of<'a>(alloc: Global, words: &'a [&'a str]) -> Result<ArgMatches<'a>, Error>
    ensures values { IfOk result (λ m. (id : List ℕ) → first_value (found_of m) id
        ≡ given id (program_matches (map (λ word. word.now) words.now))) }
    ensures faults { FailsBy (program_faults (map (λ word. word.now) words.now)) result }
{
    command(alloc)?.try_get_matches_from(words)
}

/// The value of an option, as a text of its own.
fn option_text(
    alloc: Global,
    matches: &ArgMatches<'_>,
    id: &str,
) -> Result<Option<String>, AllocError>
    ensures { IfOk result (λ value. option_map string_bytes value
        ≡ first_value (found_of matches.now) id.now) }
{
    match matches.get_str(id) {
        None => Ok(None),
        Some(value) => Ok(Some(String::from_str(alloc, value)?)),
    }
}

/// Reads the words of the program's command line, of which the first is the program's name.
///
/// # Errors
///
/// `Refused` where the words are not those of the command or ask for help, `Memory` where no memory
/// is found.
pub fn asked<'a>(alloc: Global, words: &'a [&'a str]) -> Result<Options, OptionsFault>
    // The values that the command's matches give the options with a file.
    ensures load { IfOk result (λ asked. option_map string_bytes asked.load
        ≡ given (codes "load") (program_matches (map (λ word. word.now) words.now))) }
    ensures save { IfOk result (λ asked. option_map string_bytes asked.save
        ≡ given (codes "save") (program_matches (map (λ word. word.now) words.now))) }
    ensures store { IfOk result (λ asked. option_map string_bytes asked.store
        ≡ given (codes "store") (program_matches (map (λ word. word.now) words.now))) }

    // Words are taken only where they have no fault, and refused only for one that they have.
    ensures faults { IsRefusedBy (program_faults (map (λ word. word.now) words.now)) result }
{
    match matches_of(alloc, words) {
        Ok(matches) => {
            let load = option_text(alloc, &matches, "load")?;
            let save = option_text(alloc, &matches, "save")?;
            let store = option_text(alloc, &matches, "store")?;
            let keep = matches.get_flag("keep");
            Ok(Options {
                load,
                save,
                store,
                keep,
            })
        }
        Err(error) => match error.kind() {
            ErrorKind::OutOfMemory => Err(OptionsFault::Memory),
            _ => Err(OptionsFault::Refused(error)),
        },
    }
}
