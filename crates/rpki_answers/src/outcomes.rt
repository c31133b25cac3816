//! The outcome of a run, and its exit status.
ghost use Rattle.std.specs.Prelude.{◌≡◌, IsFalse, IsTrue};
ghost use Rattle.rpki_answers.specs.Outcomes.{run_status};

/// The outcome of a run that doesn't fail.
#[derive(Clone, Copy, Debug, PartialEq, Eq)]
pub enum Outcome {
    /// All files are shown, the path is accepted, something was prepared or completed, or a text
    /// about the command was printed.
    Success,
    /// A file is no certificate, CRL or TAL; the path is rejected; a file given as a CRL or a TAL
    /// isn't one; or a request is refused.
    Rejection,
    /// The words aren't a command line.
    WrongUse,
    /// A named file can't be read, or the file of the result can't be written.
    Unread,
}

/// The text that is written, and the outcome.
#[derive(Drop)]
pub struct Answer {
    pub text: String,
    pub outcome: Outcome,
}

impl Outcome {
    /// Returns success if `yes`, and else rejection.
    pub fn of_answer(yes: bool) -> Outcome
        ensures success { IsTrue yes → result ≡ Outcome.Success }
        ensures rejection { IsFalse yes → result ≡ Outcome.Rejection }
    {
        if yes {
            Outcome::Success
        } else {
            Outcome::Rejection
        }
    }
}

/// Returns the exit status of a run. An error means that the clock, memory or an output failed.
pub fn status_of<E: Drop>(ended: &Result<Outcome, E>) -> u8
    ensures { result ≡ run_status ended.now }
{
    match ended {
        Ok(Outcome::Success) => 0,
        Ok(Outcome::Rejection) => 1,
        Ok(Outcome::WrongUse) => 2,
        Ok(Outcome::Unread) | Err(_) => 3,
    }
}
