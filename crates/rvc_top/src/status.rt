//! How a run ends.

/// How a run ends. The number of each way is the exit status of the program.
#[derive(Clone, Copy, Debug, PartialEq, Eq)]
pub enum Status {
    /// All that the words ask for is written, and the last read of each source that their command
    /// uses answered that nothing is left. Where a schedule was played, no claim was broken; where
    /// a trace was audited, it is accepted.
    Done = 0,
    /// The words have no form. No source was read, and `error usage` is written.
    Usage = 1,
    /// The protocol file has more bytes than a file may have, or it spells no protocol that the
    /// command takes, or is no control store where it is to be one. The text that says so is
    /// written, and the schedule was not read.
    FileRefused = 2,
    /// The schedule has a malformed line, one that is too long, or too many lines, and no claim is
    /// broken before. The trace of the lines before is written, and the text that says so. Or a
    /// line of the trace that is audited is refused; then that text alone is written.
    ScheduleRefused = 3,
    /// A read failed of a source that the command uses. Where it was one of the file, nothing is
    /// written; where it was one of the schedule, the blocks of the lines whose LF was taken are,
    /// and nothing where the schedule is a trace that is audited.
    ReadFault = 4,
    /// The sink failed. A front of what the run would have written is written.
    WriteFault = 5,
    /// There was no memory, or a source or the sink had none for a call. A front of what the run
    /// would have written is written.
    NoMemory = 6,
    /// A claim of the file is broken before the first line of the schedule, which was not read
    /// then, or after a line, and no line up to there is refused. The blocks of these lines are
    /// written, behind them the line that names the first claim that is broken there, and the last
    /// text. No line after that one was played.
    ClaimBroken = 7,
}
