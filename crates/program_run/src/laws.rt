//! Laws of what a run writes. Each function exists for its clause and does nothing.
ghost use Rattle.program_run.specs.ProvedFiles.{ProvedFilesAreAccepted};
ghost use Rattle.program_run.specs.ProvedRuns.{ProvedRunsAreAccepted};
ghost use Rattle.program_run.specs.ProvedTexts.{ProvedTextsAreAccepted};
ghost use Rattle.program_run.specs.LargeProgram.{LargeLimitsChangeNothing};
ghost use Rattle.program_run.specs.LiveProgram.{LiveProgramPlansAlike};
ghost use Rattle.program_run.specs.Statuses.{StatusesTellCommands};
ghost use Rattle.program_run.specs.TableFiles.{TableFilesChangeNothing};
ghost use Rattle.program_run.specs.Workers.{WorkersChangeNothing};

/// The outcome is the same for any number of workers in the options.
pub fn workers_change_nothing()
    ensures { WorkersChangeNothing }
{}

/// The outcome of `match` with a table file that is not refused is the outcome without it.
pub fn table_files_change_nothing()
    ensures { TableFilesChangeNothing }
{}

/// `check` accepts what `prove` writes of some traces, for the same traces and options.
pub fn proved_texts_are_accepted()
    ensures { ProvedTextsAreAccepted }
{}

/// `check` accepts what `prove` writes of two files, for the same files and options.
pub fn proved_files_are_accepted()
    ensures { ProvedFilesAreAccepted }
{}

/// If a run of `prove` is done, a run of `check` with its text as the certificate file and the same files
/// and options is done.
pub fn proved_runs_are_accepted()
    ensures { ProvedRunsAreAccepted }
{}

/// The words ask of the live program what they ask of this program with `follow` before them, the line of a
/// refusal included.
pub fn live_program_plans_alike()
    ensures { LiveProgramPlansAlike }
{}

/// If the network file that the words name keeps the standard limits, the outcome within the large limits is
/// the outcome within the standard limits.
pub fn large_limits_change_nothing()
    ensures { LargeLimitsChangeNothing }
{}

/// Status 7 comes only for `check`, 9 only with a table file, and 3, 5 and 6 never for `town`, whether the
/// bytes of the files are known to the proof or not.
pub fn statuses_tell_commands()
    ensures { StatusesTellCommands }
{}
