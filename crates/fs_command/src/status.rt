//! What the program ends with.

ghost use Rattle.std.specs.Prelude.{◌≡◌};
ghost use Rattle.fs_command.specs.Statuses.{code_of, status_of};

/// How the program ends.
#[derive(Clone, Copy, Debug, PartialEq, Eq)]
pub enum Status {
    /// The program did what it was asked for.
    Done,
    /// A line of the script had a fault, or the image has a finding.
    Faulty,
    /// The words ask for nothing that can be done.
    BadWords,
    /// The program failed, or a text couldn't be written.
    Failed,
}

impl Status {
    /// How a script ends that was run to its end, so many of whose lines had a fault.
    pub fn of_faults(faults: usize) -> Status
        ensures { result ≡ status_of faults }
    {
        if faults == 0 {
            Status::Done
        } else {
            Status::Faulty
        }
    }

    /// The number of it.
    pub fn code(self) -> u8
        ensures { result ≡ code_of self }
    {
        match self {
            Status::Done => 0,
            Status::Faulty => 1,
            Status::BadWords => 2,
            Status::Failed => 3,
        }
    }
}
