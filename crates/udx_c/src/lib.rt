// The calls as C and Rust make them: structs of plain numbers are passed and returned by value, words and stores are lent as they are, each
// by its own pointer, and enums are numbers. include/udx.h declares all of it, and crate udx_archive exports each function under its name
// and contract. The calls have one shape and are still written out one by one: each lends other words and stores to be written, and has a
// contract of its own.
//
// The caller may pass any numbers: a byte that is not a valid error, close state or flag is a broken record, and the call answers
// refusal 1.
#![tactic(auto)]

mod close;
mod deliver;
mod drive;
mod header;
mod layout;
mod look;
mod open;
mod read;
mod take;
mod write;

pub use close::udx_close;
pub use deliver::udx_deliver;
pub use drive::udx_drive;
pub use header::{FlatDecoded, FlatHeader, udx_decode, udx_encode};
pub use layout::{Numbers, udx_layout_step, udx_layout_stream, udx_layout_totals};
pub use look::{FlatPart, udx_look};
pub use open::udx_open;
pub use read::udx_read;
pub use take::udx_take;
pub use write::udx_write;
