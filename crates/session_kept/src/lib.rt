// The last 32 datagrams taken from an end, in slots of 1,400 bytes: the oldest is in slot `first`, each later one in the next slot, and
// slot 0 follows slot 31.
#![tactic(auto)]

ghost use Rattle.std.specs.Prelude.{◌≡◌, [], ◌∷◌, ◌++◌, map, ◌≤◌, ◌<◌, max, ltb, length, get_or, None, Some};
ghost use Rattle.model.specs.Lists.{Bytes};
ghost use Rattle.model.specs.Driving.{datagrams_of};
ghost use Rattle.session_kept.specs.Kept.{
  count_of,
  slot_of,
  slot_bytes,
  kept_of,
  last_kept,
  fitted,
  kept_segment,
  PutInSlot,
  OneMoreKept,
};

// Bytes in their store, 32 slots.
pub const KEPT_STORE: usize = 44_800;

const SLOT: usize = 1_400;

// The datagrams' bytes are not in it but in a store that is lent: a record goes by value. There is no heap, so the lengths are an array for
// the most that are kept, with a count beside it.
#[derive(Clone, Copy)]
pub struct Kept {
    // The slot of the oldest.
    pub first: u16,
    // How many there are, at most 32.
    pub count: u16,
    // The length of the datagram in each slot, at most 1,400.
    pub lengths: [u16; 32],
}

#[tactic(auto, unfolding(crate::specs::Kept::kept_of))]
pub fn no_datagrams() -> Kept
    ensures { (store : Bytes) → kept_of result store ≡ [] }
{
    Kept {
        first: 0,
        count: 0,
        lengths: [0; 32],
    }
}

fn kept_count(k: Kept) -> u16
    ensures { result ≡ count_of k }
{
    k.count.min(32)
}

// "among the other end's last 32 taken"
#[tactic(auto, using(crate::proofs::KeptLaws::kept_length))]
pub fn is_kept(k: Kept, number: u16) -> bool
    ensures { (store : Bytes) → result ≡ ltb number (length (kept_of k store)) }
{
    number < kept_count(k)
}

// The slot of a kept datagram; number 0 is the oldest kept.
fn slot(k: Kept, number: u16) -> usize
    ensures { (result ≡ slot_of k number) × (result < 32) }
{
    (k.first as usize + number as usize) % 32
}

// The bytes of a slot's datagram.
#[tactic(auto, using(crate::proofs::KeptLaws::slot_part), unfolding(crate::specs::Kept::slot_size))]
fn in_slot(k: Kept, i: usize, kept: &[u8; KEPT_STORE]) -> &[u8]
    requires { i < 32 }
    ensures { result.now ≡ slot_bytes k kept.now i }
{
    let at = i * SLOT;
    let end = at + SLOT.min(k.lengths[i] as usize);
    &kept[at..end]
}

// A kept datagram's bytes.
#[tactic(auto, using(crate::proofs::KeptLaws::kept_get))]
pub fn datagram(k: Kept, number: u16, kept: &[u8; KEPT_STORE]) -> &[u8]
    ensures { number < length (kept_of k kept.now) → result.now ≡ get_or (kept_of k kept.now) number [] }
{
    in_slot(k, slot(k, number), kept)
}

// Puts a datagram into a slot in place of what it had.
fn put_in(mut k: Kept, i: usize, datagram: &[u8], kept: &mut [u8; KEPT_STORE]) -> Kept
    requires { i < 32 }
    ensures { PutInSlot k i datagram.now kept.old result kept.new }
{
    let n = datagram.len().min(SLOT);
    records_stores::put_at(kept, i * SLOT, &datagram[..n]);
    k.lengths[i] = n as u16;
    k
}

// Counts the slot after the newest too; with 32 kept it was the oldest's.
fn one_more(k: Kept) -> Kept
    ensures { OneMoreKept k result }
{
    let count = kept_count(k);
    if count < 32 {
        return Kept {
            count: count + 1,
            ..k
        };
    }
    Kept {
        first: slot(k, 1) as u16,
        count: 32,
        ..k
    }
}

// Keeps a datagram after the newest; with 32 kept it replaces the oldest.
#[tactic(auto, using(crate::proofs::KeptLaws::kept_more))]
fn keep_one(k: Kept, datagram: &[u8], kept: &mut [u8; KEPT_STORE]) -> Kept
    ensures { kept_of result kept.new ≡ last_kept
        (kept_of k kept.old ++ (fitted datagram.now ∷ [])) }
{
    one_more(put_in(k, slot(k, kept_count(k)), datagram, kept))
}

// How many bytes each datagram of a batch has, but for the last: all of them where there is no segment size. A size of 0 would have no end,
// so it counts as 1.
fn piece(segment: Option<usize>, whole: usize) -> usize
    ensures some_bytes { 0 < result }
    ensures all { segment ≡ None → whole ≤ result }
    ensures cut { (size : _) → segment ≡ Some size → result ≡ max size 1 }
{
    segment.unwrap_or(whole).max(1)
}

// "A batch's datagrams are its pieces of segment size, or all of it where it has none"
pub fn keep(k: Kept, batch: &[u8], segment: Option<usize>, kept: &mut [u8; KEPT_STORE]) -> Kept
    ensures { kept_of result kept.new ≡ last_kept
        (kept_of k kept.old ++ map fitted (datagrams_of (kept_segment segment) batch.now)) }
{
    let mut r = k;
    for datagram in batch.chunks(piece(segment, batch.len())) {
        r = keep_one(r, datagram, kept);
    }
    r
}
