//! A whole run: the store of a file is loaded, where one is named, the lines of an input are answered, and what they left is saved,
//! where a file is named.

ghost use Rattle.std.specs.Prelude.{ℕ, List, Option, IfErr, IfOk, OnOk, option_map};
ghost use Rattle.sf_saving.specs.Canonical.{canonical_ruled};
ghost use Rattle.sf_console.specs.History.{ruled_now};
ghost use Rattle.sf_run.specs.Files.{AreSaving, Does, EndsBy, FileCall, IsSaved, IsServed, IsUnsaved};

use super::running::{RunFault, Served, run, run_from};
use sf_saving::SaveFault;
use std::alloc::Global;
use std::io::{Read, Write};

/// Why a file could not be begun.
#[derive(Clone, Copy, Debug, PartialEq, Eq)]
pub enum BeginFault {
    /// It could not be opened or made.
    Open,
    Memory,
}

/// The file to load could not be opened.
#[derive(Clone, Copy, Debug, PartialEq, Eq)]
pub struct OpenFault;

/// Why a run between files ended before its end.
#[derive(Debug, Drop)]
pub enum FilesFault {
    /// The file to load could not be opened: nothing was read or written.
    Open,
    /// Loading or serving ended: no file was begun.
    Run(RunFault),
    /// The file to save to could not be begun.
    Begin(BeginFault),
    /// What was served could not be saved.
    Save(SaveFault),
}

/// What a run asks of its files.
pub trait RunFiles {
    ghost use Rattle.std.specs.Prelude.{[], ◌∷◌, List, Option, None, IfOk, OnErr, OnOk};
    ghost use Rattle.sf_run.specs.Files.{Does, FileCall, IsNew};
    ghost use Rattle.sf_run.specs.Files.FileCall.{BeginFails, Begins, FinishFails, Finishes, GivesUp, OpenFails, Opens};

    /// The calls that were made, where they are known.
    ghost calls: { Self → Option (List FileCall) } = { λ _. None };

    /// A file that is read.
    type Source: Read + Drop;

    /// A file that is written, and takes its place once it is finished.
    type Target: Write + Drop;

    /// Opens a file to be read.
    fn open(&mut self, path: &str) -> Result<Self::Source, OpenFault>
        ensures opened { IfOk result (λ file. Does (calls self.old) (calls self.new) (Opens path.now (Self.Source.remaining file) ∷ [])) }
        ensures failed { OnErr result (Does (calls self.old) (calls self.new) (OpenFails path.now ∷ [])) };

    /// Begins an empty file that is to take the place of what a path names.
    fn begin(&mut self, path: &str) -> Result<Self::Target, BeginFault>
        ensures begun { OnOk result (Does (calls self.old) (calls self.new) (Begins path.now ∷ [])) }
        ensures failed { OnErr result (Does (calls self.old) (calls self.new) (BeginFails path.now ∷ [])) }
        ensures empty { IfOk result (λ target. IsNew (Self.Target.contents target)) };

    /// Has the file take its place.
    fn finish(&mut self, target: Self::Target) -> Result<(), SaveFault>
        ensures finished { OnOk result (Does (calls self.old) (calls self.new) (Finishes (Self.Target.contents target) ∷ [])) }
        ensures failed { OnErr result (Does (calls self.old) (calls self.new) (FinishFails (Self.Target.contents target) ∷ [])) };

    /// Gives the file up: what the path names stays.
    fn give_up(&mut self, target: Self::Target)
        ensures { Does (calls self.old) (calls self.new) (GivesUp ∷ []) };
}

/// Answers the lines of an input over the store of a file, or over a new one, and saves what they left to a file, where one is named.
/// Until all lines are answered no file is begun.
///
/// # Errors
///
/// Where a file can't be opened, loaded, begun or written, and where serving ends before its time.
pub fn run_between<F: RunFiles, R: Read, W: Write>(
    alloc: Global,
    files: &mut F,
    load: Option<&str>,
    save: Option<&str>,
    input: &mut R,
    output: &mut W,
) -> Result<(), FilesFault>
    ensures ok { OnOk result (IsSaved (option_map (λ path. path.now) load.entry) (option_map (λ path. path.now) save.entry)
        (F.calls files.old) (F.calls files.new)
        (R.remaining input.old) (R.remaining input.new) (W.contents output.old) (W.contents output.new)) }
    ensures fault { IfErr result (λ fault. EndsBy fault (option_map (λ path. path.now) load.entry) (option_map (λ path. path.now) save.entry)
        (F.calls files.old) (F.calls files.new)
        (R.remaining input.old) (R.remaining input.new) (W.contents output.old) (W.contents output.new)) }
{
    let served = served_from(alloc, files, load, input, output)?;
    save_to(alloc, files, save, &served)
}

/// Answers the lines over the store of a file, or over a new one.
fn served_from<F: RunFiles, R: Read, W: Write>(
    alloc: Global,
    files: &mut F,
    load: Option<&str>,
    input: &mut R,
    output: &mut W,
) -> Result<Served, FilesFault>
    ensures ok { IfOk result (λ served. (loading : List FileCall) × IsServed (option_map (λ path. path.now) load.entry) loading
        (R.remaining input.old) (R.remaining input.new) (W.contents output.old) (W.contents output.new) served
        × Does (F.calls files.old) (F.calls files.new) loading) }
    ensures fault { IfErr result (λ fault. (save : Option (List ℕ)) → EndsBy fault (option_map (λ path. path.now) load.entry) save
        (F.calls files.old) (F.calls files.new)
        (R.remaining input.old) (R.remaining input.new) (W.contents output.old) (W.contents output.new)) }
{
    let Some(path) = load else {
        return run(alloc, input, output).map_err(|fault| FilesFault::Run(RunFault::Serve(fault)));
    };
    match files.open(path) {
        Ok(file) => {
            let mut file = file;
            match run_from(alloc, &mut file, input, output) {
                Ok(served) => Ok(served),
                Err(fault) => Err(FilesFault::Run(fault)),
            }
        }
        Err(_) => Err(FilesFault::Open),
    }
}

/// Saves what was served to a file, where one is named.
fn save_to<F: RunFiles>(
    alloc: Global,
    files: &mut F,
    save: Option<&str>,
    served: &Served,
) -> Result<(), FilesFault>
    ensures ok { OnOk result ((saving : List FileCall)
        × AreSaving (option_map (λ path. path.now) save.entry) (canonical_ruled (ruled_now served.now)) saving
        × Does (F.calls files.old) (F.calls files.new) saving) }
    ensures fault { IfErr result (IsUnsaved (option_map (λ path. path.now) save.entry) (F.calls files.old) (F.calls files.new)) }
{
    let Some(path) = save else {
        return Ok(());
    };
    let mut target = match files.begin(path) {
        Ok(target) => target,
        Err(fault) => return Err(FilesFault::Begin(fault)),
    };
    if let Err(fault) = served.save(alloc, &mut target) {
        files.give_up(target);
        return Err(FilesFault::Save(fault));
    }
    match files.finish(target) {
        Ok(()) => Ok(()),
        Err(fault) => Err(FilesFault::Save(fault)),
    }
}
