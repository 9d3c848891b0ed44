//! Requests and responses as JSON (JSON Profile of XACML 3.0, version 1.1): which request a JSON value asks for, and
//! how an answer is written.
#![tactic(auto)]

mod attribute;
mod categories;
mod category;
mod fault;
mod form;
mod given;
mod given_text;
mod included_text;
mod law;
mod reals;
mod request;
mod response;
mod response_text;

pub use fault::RequestFault;
pub use given::write_given;
pub use given_text::write_given_text;
pub use law::requests_read_back;
pub use request::read_request;
pub use response::write_response;
pub use response_text::write_response_text;
