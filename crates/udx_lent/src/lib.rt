// The calls with the totals lent: "the totals are one record that each call is lent and updates". Each is a thin wrapper over the call in
// udx, which takes and returns the totals by value, and has the same contract: its answer and the totals it leaves form the step
// (specs/Whole.antt). `open` makes the totals and `look` reads them by value. Words and stores are lent one by one, as in udx,
// and each call is written out: it lends other parts to be written and has its own contract.
#![tactic(auto)]

mod answer;
pub mod close;
pub mod deliver;
pub mod drive;
pub mod read;
pub mod take;
pub mod write;

pub use answer::Answer;
