//! The laws of written runs. Each is a function that does nothing, and its contract is the law.
ghost use Rattle.written_runs.specs.Laws.{LinesHaveOneReading, RunsHaveOneVerdict, SizedLinesHaveOneReading};

/// A line is written of one event, its reply and a hint.
pub fn lines_have_one_reading()
    ensures { LinesHaveOneReading }
{}

/// A line of a heap whose objects may lie anywhere is written of one event, its reply, a hint and a number of words.
pub fn sized_lines_have_one_reading()
    ensures { SizedLinesHaveOneReading }
{}

/// Of the lines of a run one verdict is true, wherever its objects may lie in a heap that has a range.
pub fn runs_have_one_verdict()
    ensures { RunsHaveOneVerdict }
{}
