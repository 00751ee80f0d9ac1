ghost use Rattle.std.specs.Prelude.{◌≡◌};

use qm_statement::Status;

/// What came of a command that writes files, before it is printed.
#[derive(Drop)]
pub enum Outcome {
    /// The files are written; the text is the summary, or the line of an upgrade.
    Done(String),
    /// The file is written, and an entity leaks; the text names it and its trail.
    Leak(String),
    ReadFault,
    /// The text of the map has a fault; the text is the line that says which.
    MapFault(String),
    WriteFault,
}

impl Outcome {
    ghost use Rattle.qm_make.specs.StatusAndText.{due_status, due_text};

    /// The status that is due.
    pub fn status(&self) -> Status
        ensures { result ≡ due_status self.now }
    {
        match self {
            Outcome::Done(_) => Status::Done,
            Outcome::Leak(_) => Status::Leak,
            Outcome::ReadFault => Status::ReadFault,
            Outcome::MapFault(_) => Status::MapFault,
            Outcome::WriteFault => Status::WriteFault,
        }
    }

    /// The text that is due with the status.
    #[tactic(auto, unfolding(qm_statement::specs::Texts::read_fault_text, qm_statement::specs::Texts::write_fault_text))]
    pub fn text(&self) -> &[u8]
        ensures { result.now ≡ due_text self.now }
    {
        match self {
            Outcome::Done(text) | Outcome::Leak(text) => text.as_bytes(),
            Outcome::ReadFault => b"read fault\n",
            Outcome::MapFault(line) => line.as_bytes(),
            Outcome::WriteFault => b"write fault\n",
        }
    }
}
