//! What may be wrong with a file that declares attributes.

ghost use Rattle.std.specs.Prelude.{◌≡◌, IfOk, string_bytes};
ghost use Rattle.lint_declared.specs.Attributes.{place_in, pointer_of};

use std::alloc::{AllocError, Global};

/// What is wrong with a declaration.
#[derive(Clone, Copy, Debug, PartialEq, Eq)]
pub enum AttributeFault {
    /// It isn't an object, or it has another key than Category, AttributeId, DataType, Issuer and Values.
    Form,
    /// Its Category isn't a text of 1 to 256 bytes.
    Category,
    /// Its AttributeId isn't a text of 1 to 256 bytes.
    AttributeId,
    /// Its DataType isn't the name of a data type.
    DataType,
    /// Its Issuer isn't a text of 1 to 256 bytes.
    Issuer,
    /// Its Values isn't a list.
    Values,
    /// The value of that number, from 0 on, isn't one of its type.
    Value(usize),
}

/// What is wrong with a file that declares attributes.
#[derive(Clone, Copy, Debug, PartialEq, Eq)]
pub enum AttributesFault {
    /// It isn't an object whose only key is Attributes, with a list there.
    NoList,
    /// This is wrong with the declaration of that number, from 0 on.
    Member(usize, AttributeFault),
}

impl AttributeFault {
    /// The key at which the fault stands, as a JSON pointer inside of the declaration.
    fn place(self, alloc: Global) -> Result<String, AllocError>
        ensures { IfOk result (λ p. string_bytes p ≡ place_in self) }
    {
        match self {
            AttributeFault::Form => Ok(String::new(alloc)),
            AttributeFault::Category => String::from_str(alloc, "/Category"),
            AttributeFault::AttributeId => String::from_str(alloc, "/AttributeId"),
            AttributeFault::DataType => String::from_str(alloc, "/DataType"),
            AttributeFault::Issuer => String::from_str(alloc, "/Issuer"),
            AttributeFault::Values => String::from_str(alloc, "/Values"),
            AttributeFault::Value(number) => format!(in alloc; "/Values/{number}"),
        }
    }
}

impl AttributesFault {
    /// Where the fault stands in the file, as a JSON pointer (RFC 6901).
    ///
    /// # Errors
    ///
    /// `AllocError` if memory runs out.
    ///
    /// Its contract is an equation but for memory.
    pub fn pointer(self, alloc: Global) -> Result<String, AllocError>
        ensures { IfOk result (λ p. string_bytes p ≡ pointer_of self) }
    {
        match self {
            AttributesFault::NoList => String::from_str(alloc, "/Attributes"),
            AttributesFault::Member(number, fault) => {
                let place = fault.place(alloc)?;
                let place = place.as_str();
                format!(in alloc; "/Attributes/{number}{place}")
            }
        }
    }
}
