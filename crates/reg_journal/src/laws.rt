// What the clauses say together.
ghost use Rattle.std.specs.Prelude.{◌≡◌, ◌++◌, List, count_by};
ghost use Rattle.reg_records.specs.Log.{records_in, is_foreign};
ghost use Rattle.reg_records.specs.declared.record.Read.{Read};
ghost use Rattle.reg_records.specs.declared.record.Record.{Record};
ghost use Rattle.reg_journal.specs.Lines.{EndedLinesAreRead, LinesAreRead, LogsAreLines, batch_reads};

/// States that a log with a batch behind it has its own records and then the batch's, and no more
/// foreign lines than before. Costs nothing at run time.
pub fn batches_add_records()
    ensures records { (read : List Read) (batch : List Record) → records_in (read ++ batch_reads batch) ≡ records_in read ++ batch }
    ensures foreign { (read : List Read) (batch : List Record) → count_by is_foreign (read ++ batch_reads batch) ≡ count_by is_foreign read }
{}

/// States that lines are read as the log that they say, with or without an empty line behind them,
/// and that each log is such lines. Costs nothing at run time.
pub fn lines_are_logs()
    ensures read { LinesAreRead }
    ensures ended { EndedLinesAreRead }
    ensures lines { LogsAreLines }
{}
