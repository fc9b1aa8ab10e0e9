// Lines of key=value and the numbers in them: read from any bytes, and put into any bytes. What is put is read back.
#![tactic(auto)]

mod putting;
mod reading;

pub use putting::{put, put_line, put_number};
pub use reading::{Part, bytes_line, signed_line, unsigned_line};
