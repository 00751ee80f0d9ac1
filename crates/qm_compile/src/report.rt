ghost use Rattle.std.specs.Prelude.{◌≡◌};

use qm_make::Outcome;
use qm_statement::Status;

/// What came of the words, before it is printed.
#[derive(Drop)]
pub enum Report {
    /// The words are no command.
    Usage,
    /// What came of a command that writes files.
    OfFiles(Outcome),
    /// The tree file could not be read.
    ReadFault,
    /// The bytes are no tree file; the text is the line that says why.
    TreeFault(String),
    /// A query is refused; the text is the line that says which, and why.
    QueryRefused(String),
    /// Every query is answered; these are the lines.
    Answered(Vec<u8>),
    /// The summary of generated rooms.
    SummedUp(String),
}

impl Report {
    ghost use Rattle.qm_compile.specs.inner.Reported.{reported_status, reported_text};

    /// The status that is due.
    pub fn status(&self) -> Status
        ensures { result ≡ reported_status self.now }
    {
        match self {
            Report::Usage => Status::Usage,
            Report::OfFiles(outcome) => outcome.status(),
            Report::ReadFault => Status::ReadFault,
            Report::TreeFault(_) => Status::TreeFault,
            Report::QueryRefused(_) => Status::QueryRefused,
            Report::Answered(_) | Report::SummedUp(_) => Status::Done,
        }
    }

    /// The text that is due with the status.
    #[tactic(auto, unfolding(qm_statement::specs::Texts::usage_text, qm_statement::specs::Texts::read_fault_text))]
    pub fn text(&self) -> &[u8]
        ensures { result.now ≡ reported_text self.now }
    {
        match self {
            Report::Usage =>
                b"usage: qmapc compile MAP OUT [--prt FILE] [--threads N] [--fast] [--hulls] [--models] [--faces] | inspect TREE QUERY.. | format MAP OUT | demo N NUMBER | upgrade TREE OUT\n",
            Report::OfFiles(outcome) => outcome.text(),
            Report::ReadFault => b"read fault\n",
            Report::TreeFault(line) | Report::QueryRefused(line) => line.as_bytes(),
            Report::Answered(lines) => lines.as_slice(),
            Report::SummedUp(text) => text.as_bytes(),
        }
    }
}
