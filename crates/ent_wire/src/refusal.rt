//! Refusals by their numbers. Each number stands here alone.

ghost use Rattle.std.specs.Prelude.{◌≡◌};
ghost use Rattle.ent_wire.specs.Refusals.{code_of, sub_of};

use ent_policy::DocFault;
use thiserror::Error;

/// Why a line or a file is refused.
#[derive(Clone, Copy, Debug, PartialEq, Eq, Error)]
pub enum Refusal {
    #[error("it is longer than it may be")]
    TooLong,
    #[error("it isn't JSON")]
    NotJson,
    #[error("its shape is wrong")]
    Shape,
    #[error("no one knows the command")]
    UnknownCommand,
    #[error("the session isn't one of the sixteen")]
    UnknownSession,
    #[error("{0}")]
    Document(DocFault),
    #[error("what is named isn't there")]
    NotThere,
    #[error("what is to be added is there already")]
    AlreadyThere,
    #[error("a limit is reached")]
    Limit,
    #[error("the attribute is reserved")]
    Reserved,
    #[error("a value can't be used")]
    BadValue,
    #[error("the session has no mark")]
    NoMark,
    #[error("no module has the number")]
    UnknownModule,
    #[error("what is asked is no request")]
    Request,
    #[error("out of memory")]
    Memory,
}

impl Refusal {
    /// The number by which the refusal is told.
    ///
    /// Its contract is an equation.
    pub fn code(self) -> u8
        ensures { result ≡ code_of self }
    {
        match self {
            Refusal::TooLong => 1,
            Refusal::NotJson => 2,
            Refusal::Shape => 3,
            Refusal::UnknownCommand => 4,
            Refusal::UnknownSession => 5,
            Refusal::Document(_) => 6,
            Refusal::NotThere => 7,
            Refusal::AlreadyThere => 8,
            Refusal::Limit => 9,
            Refusal::Reserved => 10,
            Refusal::BadValue => 11,
            Refusal::NoMark => 12,
            Refusal::UnknownModule => 13,
            Refusal::Request => 14,
            Refusal::Memory => 15,
        }
    }

    /// The sub-code that is told beside the number, of a document.
    ///
    /// Its contract is an equation.
    pub fn sub_code(self) -> Option<u8>
        ensures { result ≡ sub_of self }
    {
        match self {
            Refusal::Document(fault) => Some(fault.code()),
            _ => None,
        }
    }
}
