//! The functions of expressions, and their types (appendix A.3 of OASIS XACML 3.0 core).
#![tactic(auto)]

mod among;
mod arg;
mod arithmetic;
mod bags;
mod dates;
mod dispatch;
mod function;
mod higher;
mod identifiers;
mod logic;
mod reading;
mod sets;
mod texts;
mod types;
mod typing;

pub use arg::{Arg, Fault, same_is_equal};
pub use dispatch::{apply, boolean_functions_have_no_fault, well_typed_calls_have_answers};
pub use function::{Comparison, Element, Function, Ordered};
pub use identifiers::ids_read_back;
pub use types::ArgType;
