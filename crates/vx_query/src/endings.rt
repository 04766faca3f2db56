// How the scan of a request ends.
ghost use Rattle.std.specs.Prelude.{◌≡◌};
ghost use Rattle.vx_query.specs.EndingViews.{ending_status, ending_text};

use crate::statuses::{BROKEN, WRITTEN};

/// How the scan of a request ends.
#[derive(Drop)]
pub(crate) enum Ending {
    /// With a report: its text.
    Report(String),
    /// Broken by a sum or difference that has no value.
    Overflow,
    /// Broken by a cast that has no value.
    BadCast,
}

impl Ending {
    /// The exit status of the program.
    pub(crate) fn status(&self) -> u8
        ensures { result ≡ ending_status self.now }
    {
        match self {
            Ending::Report(_) => WRITTEN,
            Ending::Overflow | Ending::BadCast => BROKEN,
        }
    }

    /// The text that is written: the report, or a line, which takes no memory.
    pub(crate) fn text(&self) -> &str
        ensures { result.now ≡ ending_text self.now }
    {
        match self {
            Ending::Report(text) => text.as_str(),
            Ending::Overflow => "error: Overflow\n",
            Ending::BadCast => "error: BadCast\n",
        }
    }
}
