use dt_log::Log;

/// What a search answers.
#[derive(Debug, Drop)]
pub enum Outcome {
    /// These numbers, one for each choice, solve the problem.
    Found(Vec<u128>),
    /// The log refutes the problem.
    Refuted(Log),
    /// The log is the record of a search that ended at its limit.
    Spent(Log),
}
