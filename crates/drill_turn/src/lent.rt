// What a run of a drill is lent. A program owns one.
ghost use Rattle.drill_turn.specs.Lent.{FreshLent};

use drill_broken::Spare;
use session_text::LINE;
use session_turn::{EndStores, SCRATCH};

// What is lent with each end, and the buffers.
#[derive(Drop)]
pub struct DrillLent {
    pub zero: EndStores,
    pub one: EndStores,
    pub scratch: [u8; SCRATCH],
    pub spare: Spare,
    pub line: [u8; LINE],
}

impl DrillLent {
    // As it is before the ends are opened over their stores.
    #[inline(always)]
    pub fn fresh() -> Self
        ensures { FreshLent result }
    {
        DrillLent {
            zero: EndStores::fresh(),
            one: EndStores::fresh(),
            scratch: [0; SCRATCH],
            spare: Spare::fresh(),
            line: [0; LINE],
        }
    }
}
