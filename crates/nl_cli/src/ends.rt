//! How a call ends.
ghost use Rattle.std.specs.Prelude.{◌≡◌};
ghost use Rattle.nl_cli.specs.Answer.{code_of, status_of};

use crate::words::Role;
use nl_check_model::ModelFault;
use nl_experiment::PlanFault;

/// How a call of the program ended.
#[derive(Clone, Copy, Debug, PartialEq, Eq)]
pub enum Status {
    /// All of the command's output was put.
    Done,
    /// The words name no command.
    Usage,
    /// The model has a fault.
    Model,
    /// The experiment has a fault, or it has no run of the number that was asked for.
    Plan,
    /// A file could not be read.
    Read,
    /// The output could not be written.
    Write,
    /// An allocation was refused.
    Memory,
    /// A partial table isn't the beginning of the experiment's table.
    NotPartial,
}

impl Status {
    /// The code that the process ends with.
    pub fn code(self) -> u8
        ensures { result ≡ code_of self }
    {
        match self {
            Status::Done => 0,
            Status::Usage => 1,
            Status::Model => 2,
            Status::Plan => 3,
            Status::Read => 4,
            Status::Write => 5,
            Status::Memory => 6,
            Status::NotPartial => 7,
        }
    }
}

/// Why a call ends before its output is whole.
#[derive(Drop)]
pub enum End {
    Model(ModelFault),
    Plan(PlanFault),
    Read(Role),
    Write,
    Memory,
}

impl End {
    /// The status of a call that ends so.
    pub fn status(&self) -> Status
        ensures { result ≡ status_of self.now }
    {
        match self {
            End::Model(_) => Status::Model,
            End::Plan(_) => Status::Plan,
            End::Read(_) => Status::Read,
            End::Write => Status::Write,
            End::Memory => Status::Memory,
        }
    }
}
