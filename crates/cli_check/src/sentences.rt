//! What is said on standard error of what is checked.

ghost use Rattle.std.specs.Prelude.{◌≡◌};
ghost use Rattle.cli_check.specs.Sentences.{declared_sentence, document_sentence, file_sentence, state_sentence};
ghost use Rattle.cli_check.specs.Sentences.{undeclared_sentence, line_sentence, lines_alone_sentence};
ghost use Rattle.cli_check.specs.Sentences.{no_files_sentence};

use crate::checking::{FILE_LIMIT, FileFault};
use crate::declaring::DeclaredFault;
use ent_policy::DocFault;

/// What is said of the first fault of a document in a file.
///
/// Its contract is an equation.
pub(crate) fn document_sentence(fault: DocFault) -> &'static str
    ensures { result.now ≡ document_sentence fault }
{
    match fault {
        DocFault::Form => {
            "review: a key is unknown or missing, or what stands at it has the wrong form"
        }
        DocFault::Identifier => {
            "review: an identifier is empty or has more than 256 bytes, or two rules of a policy have the same one"
        }
        DocFault::Version => {
            "review: a version isn't 1 to 8 numbers of at most 9 digits with dots between them, or a version pattern can't be read"
        }
        DocFault::Algorithm => "review: a rule or policy combining algorithm is unknown",
        DocFault::Function => "review: a function is unknown",
        DocFault::Variable => "review: a variable is defined twice, not at all, or through itself",
        DocFault::Size => {
            "review: a list has more than 256 members, or the document more than 65,536 expressions or 32 references"
        }
        DocFault::Depth => "review: expressions or policy sets nest more than 16 deep",
        DocFault::Type => {
            "review: a data type is unknown, a value isn't of its type, or an expression has the wrong type"
        }
    }
}

/// The sentence on a file that is too long has the number of bytes that it may have.
const _: () = prove!(FILE_LIMIT == 1_048_576);

/// What is said of a file that is refused.
///
/// Its contract is an equation.
pub fn file_sentence(fault: FileFault) -> &'static str
    ensures { result.now ≡ file_sentence fault }
{
    match fault {
        FileFault::TooLong => "review: the file has more than 1048576 bytes",
        FileFault::NotJson => "review: the file isn't JSON",
        FileFault::Document(fault) => document_sentence(fault),
    }
}

/// What is said of a document that asks for an attribute, or compares with a value, which isn't declared.
///
/// Its contract is an equation.
pub(crate) fn undeclared_sentence() -> &'static str
    ensures { result.now ≡ undeclared_sentence }
{
    "review: the document asks for an attribute, or compares with a value, that isn't declared"
}

/// What is said of a file of declared attributes that can't be used.
///
/// Its contract is an equation.
pub(crate) fn declared_sentence(fault: DeclaredFault) -> &'static str
    ensures { result.now ≡ declared_sentence fault }
{
    match fault {
        DeclaredFault::TooLong => "review: the file of attributes has more than 1048576 bytes",
        DeclaredFault::NotJson => "review: the file of attributes isn't JSON",
        DeclaredFault::Attributes(_) => "review: the file of attributes hasn't the form of one",
    }
}

/// What is said of a file of a state that can't be used.
///
/// Its contract is an equation.
pub(crate) fn state_sentence() -> &'static str
    ensures { result.now ≡ state_sentence }
{
    "review: the file of the state hasn't the lines of a dump"
}

/// What is said of lines with which something is wrong.
///
/// Its contract is an equation.
pub(crate) fn line_sentence() -> &'static str
    ensures { result.now ≡ line_sentence }
{
    "review: something is wrong with a line"
}

/// What is said where lines are named, and no attributes.
///
/// Its contract is an equation.
pub(crate) fn lines_alone_sentence() -> &'static str
    ensures { result.now ≡ lines_alone_sentence }
{
    "review: --lines compares with the attributes of --attributes"
}

/// What is said where the folders that are named have no documents.
///
/// Its contract is an equation.
pub(crate) fn no_files_sentence() -> &'static str
    ensures { result.now ≡ no_files_sentence }
{
    "review: no file there ends in .json"
}
