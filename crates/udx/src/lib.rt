// The calls of a stream. Each takes any records, checks 01's refusals in order, and returns the stream and the totals after the call.
// specs/Agree.antt says what it means that an answer on the records agrees with the model's.
//
// Words and stores are lent one by one, as from C: a call writes some and only reads others, and a struct would lend all for writing.
//
// The refusals that each call can return, in checking order:
//
//   open            1 (lengths only), 3, 4
//   write           1, 6, 14, 15, 16, 17
//   deliver         1, 4, 5, 6, 7, 8, 9, 10, 11, 12, 13
//   drive           1, 4, 5, 6
//   take            1, 2
//   look            none: an empty part in place of 1
//   read            1, 14, 15, 16
//   close           1, 5, 6, 13
//   Header::encode  2
//   Header::from_bytes (decode)  7
#![tactic(auto)]

pub mod close;
pub mod deliver;
pub mod drive;
pub mod look;
pub mod read;
pub mod take;
pub mod write;

pub use packet::Header;
pub use records::open;
pub use udx_steps::Step;
