ghost use Rattle.std.specs.Prelude.{◌≡◌};
ghost use Rattle.crs_words.specs.Kinds.{kinds_of};

/// What is printed of models.
#[derive(Clone, Copy, Debug, PartialEq, Eq)]
pub enum Listing {
    /// The canonical text.
    Canonical,
    /// The least bounds, the reach and the earliest dates of each chronicle.
    Minimal,
}

/// Which listeners' pages are written behind the log's text, by the words of their kinds.
#[derive(Clone, Copy, Debug, PartialEq, Eq)]
pub struct Tally {
    pub count: bool,
    pub span: bool,
    pub longest: bool,
    pub fewer: bool,
}

impl Tally {
    /// For each kind of listener from 0 on whether it is asked for.
    pub fn kinds(self) -> [bool; 4]
        ensures { result ≡ kinds_of self }
    {
        [self.count, self.span, self.longest, self.fewer]
    }
}

/// What the program was asked for. Names are those of files.
#[derive(Debug, Drop)]
pub enum Command<'a> {
    /// To recognise the models in the log, with the levels of events read or not and with the entries
    /// of each recognition cited or not, and to write the numbers of the run behind it where a summary
    /// is asked for, and then the pages of the listeners that are.
    Run {
        focus: bool,
        summary: bool,
        cite: bool,
        tally: Tally,
        models: &'a str,
        log: &'a str,
    },
    /// To print the models.
    Print {
        listing: Listing,
        models: &'a str,
    },
    /// To write the numbers of a run over the made log of so many lines that the seed gives, with
    /// the levels of events read or not. The seed is 1 to 2147483646, and there are at most
    /// 1,000,000 lines.
    Drill {
        focus: bool,
        seed: u32,
        lines: u32,
    },
    /// To write the table as a log.
    Import {
        table: &'a str,
    },
    /// To check that each recognition that the output cites is one of the models in the log.
    Audit {
        models: &'a str,
        log: &'a str,
        output: &'a str,
    },
    /// To recognise the models in one to eight logs at once, with the levels of events read or not.
    Feeds {
        focus: bool,
        models: &'a str,
        logs: Vec<&'a str>,
    },
}
