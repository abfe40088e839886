//! Runs: what is loaded, served and saved, and in which order.

ghost use Rattle.std.specs.Prelude.{[], IfErr, IfOk, OnErr, OnOk};
ghost use Rattle.std.specs.Io.KnownBytes.{Appends};
ghost use Rattle.sf_streams.specs.Streams.{WritesFront};
ghost use Rattle.sf_saving.specs.Canonical.{canonical_ruled};
ghost use Rattle.sf_console.specs.History.{fresh, ruled_now};
ghost use Rattle.sf_console.specs.Serving.{ServesAll};
ghost use Rattle.sf_run.specs.Runs.{Breaks, EndsEarly, RunsFrom};

use sf_console::{Editor, ServeFault, serve};
use sf_loading::{LoadFault, load};
use sf_saving::{SaveFault, save};
use std::alloc::Global;
use std::io::{Read, Write};
use std::marker::Model;

/// All lines of an input were answered, and this is what they left. Nothing else is ever saved. Contracts see
/// it as the machine of the history.
#[derive(Drop)]
pub struct Served {
    editor: Editor,
}

impl Model for Served {
    ghost use Rattle.sf_console.specs.History.{Machine};

    ghost Value = { Machine };

    ghost view = { λ a. a.editor };
}

/// Why a run ended before the end of its input.
#[derive(Debug, Drop)]
pub enum RunFault {
    /// The file could not be loaded: no line was read, and nothing was written.
    Load(LoadFault),
    Serve(ServeFault),
}

/// Answers the lines of an input, over a new store.
///
/// # Errors
///
/// As those of `serve`. What was carried out is gone then.
pub fn run<R: Read, W: Write>(
    alloc: Global,
    input: &mut R,
    output: &mut W,
) -> Result<Served, ServeFault>
    // All lines were answered, and nothing else was written.
    ensures ok { IfOk result (λ served. ServesAll (R.remaining input.old) (R.remaining input.new)
        (W.contents output.old) (W.contents output.new) (fresh []) served) }

    // What was read and written before the fault.
    ensures fault { IfErr result (λ fault. EndsEarly fault (R.remaining input.old) (R.remaining input.new)
        (W.contents output.old) (W.contents output.new) (fresh [])) }
{
    serve_from(alloc, Editor::new(alloc), input, output)
}

/// Answers the lines of an input, over the store that a file's bytes are.
///
/// # Errors
///
/// As those of `load` and of `serve`. What was carried out is gone then.
pub fn run_from<F: Read, R: Read, W: Write>(
    alloc: Global,
    file: &mut F,
    input: &mut R,
    output: &mut W,
) -> Result<Served, RunFault>
    // The file's bytes have a content, which is well formed, and rules that hold in it; from these on all lines were answered.
    ensures ok { IfOk result (λ served. RunsFrom (F.remaining file.old) (F.remaining file.new)
        (λ start. ServesAll (R.remaining input.old) (R.remaining input.new)
        (W.contents output.old) (W.contents output.new) start served)) }

    // The file's bytes have none, or could not be read, and nothing was served; or serving ended early.
    ensures fault { IfErr result (λ fault. Breaks fault (F.remaining file.old) (F.remaining file.new)
        (R.remaining input.old) (R.remaining input.new) (W.contents output.old) (W.contents output.new)) }
{
    match load(alloc, file) {
        Err(fault) => Err(RunFault::Load(fault)),
        Ok(ruled) => {
            // The types keep the content well formed and its rules held. Asked for numbers, they show the proof so.
            let _ = ruled.store().layer_count();
            let _ = ruled.rule_count();
            let editor = Editor::from_ruled(alloc, ruled);
            serve_from(alloc, editor, input, output).map_err(RunFault::Serve)
        }
    }
}

impl Served {
    /// Writes the canonical bytes of the store with its rules, and flushes the writer.
    ///
    /// # Errors
    ///
    /// As those of `save`.
    pub fn save<W: Write>(&self, alloc: Global, file: &mut W) -> Result<(), SaveFault>
        ensures ok { OnOk result (Appends (W.contents file.old) (W.contents file.new) (canonical_ruled (ruled_now self.now))) }
        ensures broken { OnErr result (WritesFront (W.contents file.old) (W.contents file.new) (canonical_ruled (ruled_now self.now))) }
    {
        save(alloc, self.editor.ruled(), file)
    }
}

/// Answers the lines of an input, with an editor.
fn serve_from<R: Read, W: Write>(
    alloc: Global,
    editor: Editor,
    input: &mut R,
    output: &mut W,
) -> Result<Served, ServeFault>
    ensures ok { IfOk result (λ served. ServesAll (R.remaining input.old) (R.remaining input.new)
        (W.contents output.old) (W.contents output.new) editor served) }
    ensures fault { IfErr result (λ fault. EndsEarly fault (R.remaining input.old) (R.remaining input.new)
        (W.contents output.old) (W.contents output.new) editor) }
{
    let mut editor = editor;
    match serve(alloc, &mut editor, input, output) {
        Ok(()) => Ok(Served { editor }),
        Err(fault) => Err(fault),
    }
}
