//! The values of topics, with the owned text, bytes and lists that they hold, which contracts see as lists.
#![tactic(auto)]

mod bytes;
mod convert;
mod list;
mod text;
mod types;
mod value;

pub use bytes::Bytes;
pub use convert::{
    conversions_have_one_answer, double_of_float, double_of_int, float_of_double, float_of_int,
};
pub use list::{Bools, Doubles, Floats, Ints, ListOf, Texts};
pub use text::Text;
pub use types::type_number;
pub use value::Value;
