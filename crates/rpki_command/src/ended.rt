//! The end of a run whose text was written.
ghost use Rattle.std.specs.Bool.{MatchBool};
ghost use Rattle.std.specs.Prelude.{◌≡◌};

use rpki_answers::Outcome;
use std::io;

/// The outcome of a run, and whether all of its text could be written.
#[derive(Drop)]
pub struct Ended {
    pub outcome: Outcome,
    pub written: io::Result<()>,
}

impl Ended {
    /// Keeps the outcome if all files could be read, and else sets it to [`Outcome::Unread`].
    pub fn if_read(self, are_all_read: bool) -> Ended
        ensures outcome { MatchBool are_all_read
            (result.outcome ≡ self.outcome) (result.outcome ≡ Outcome.Unread) }
        ensures written { result.written ≡ self.written }
    {
        if are_all_read {
            return self;
        }
        let Ended {
            outcome: _,
            written,
        } = self;
        Ended {
            outcome: Outcome::Unread,
            written,
        }
    }
}
