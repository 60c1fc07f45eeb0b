//! Tries once to claim a slot.

ghost use Rattle.std.specs.Prelude.{◌≡◌, IfSome};

use counted_slot::{Claim, Counted, FREE, Fits, MOST_READERS, ONE_READER, PRESENT, TAKEN};

/// Claims a slot for reading. `None` if it is empty or being written, or if its word changes
/// meanwhile.
pub(crate) fn claim_to_read<X: Fits>(slot: &Counted<X>) -> Option<Claim<'_, X>>
    ensures right { IfSome result (λ claim. claim.right ≡ 1) }
    ensures tag { IfSome result (λ claim. claim.tag ≡ slot.now) }
{
    let word = slot.load();
    if word % ONE_READER != PRESENT || word / ONE_READER >= MOST_READERS {
        return None;
    }
    let (found, claim) = slot.turn(word, word + ONE_READER);
    if found != word {
        claim.done();
        return None;
    }
    Some(claim)
}

/// Claims a slot for writing. `None` if it is being read or written, or if its word changes
/// meanwhile.
pub(crate) fn claim_to_write<X: Fits>(slot: &Counted<X>) -> Option<Claim<'_, X>>
    ensures right { IfSome result (λ claim. claim.right ≡ 2) }
    ensures tag { IfSome result (λ claim. claim.tag ≡ slot.now) }
{
    let word = slot.load();
    if word != FREE && word != PRESENT {
        return None;
    }
    let (found, claim) = slot.turn(word, TAKEN);
    if found != word {
        claim.done();
        return None;
    }
    Some(claim)
}
