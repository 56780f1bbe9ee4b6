//! Laws: a lawful log of the machine is lawful over the cells of a program too, and its replay there agrees with
//! the words (`logs_are_lawful_over_cells`); each thread's part of it is one of the image's traces
//! (`threads_do_their_parts`).
#![tactic(auto)]

ghost use Rattle.run_law.specs.Cells.{LogsAreLawfulOverCells, RisingLogsRiseOverCells, ProgramsAgreeAtFirst};
ghost use Rattle.run_law.specs.Parts.{ThreadsDoTheirParts};

/// A log of the machine is lawful over the cells of the source too.
pub fn logs_are_lawful_over_cells()
    ensures any_cells { LogsAreLawfulOverCells }
    ensures rising { RisingLogsRiseOverCells }
    ensures of_a_program { ProgramsAgreeAtFirst }
{}

/// Each thread of such a log has its part for a trace of the image, from where it begins in the
/// log.
pub fn threads_do_their_parts()
    ensures { ThreadsDoTheirParts }
{}
