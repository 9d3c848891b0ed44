//! Data types, values and bags of values of attributes, and the small types that contracts see as lists.
#![tactic(auto)]

mod bag;
mod datatype;
mod date;
mod date_time;
mod duration;
mod fault;
mod items;
mod reading;
mod shared;
mod text;
mod time;
mod value;
mod writing;

pub use bag::Bag;
pub use datatype::{DataType, type_names_read_back, types_order_as_listed};
pub use date::Date;
pub use date_time::DateTime;
pub use duration::YearMonth;
pub use fault::ValueFault;
pub use items::Items;
pub use reading::number_of_digits;
pub use shared::Shared;
pub use text::Text;
pub use time::Time;
pub use value::{Value, order_is_by_type_and_value, same_is_equal, texts_read_back, value_is_real};
