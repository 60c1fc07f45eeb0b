//! The word that holds the newest known generation of a file and its stamp.
ghost use Rattle.std.specs.Prelude.{◌≡◌, ◌<◌, ◌≤◌, IfSome};
ghost use Rattle.file_stamp.specs.Stamp.{stamps, word_generation, settled_word, generation_by};
ghost use Rattle.file_stamp.specs.Stamp as spec;
ghost use Rattle.tex_world.specs.World.{last_generation};

use crate::stamp::STAMPS;
use std::sync::atomic::{AtomicU64, Ordering};
use tex_world::LAST_GENERATION;

/// The generation in a word; 0 if none.
pub fn generation_in(word: u64) -> u32
    ensures { result ≡ word_generation word }
{
    (word / STAMPS) as u32
}

/// The word after a freshness check: unchanged if the stamp is the same, otherwise with the next
/// generation. `None` after the last generation.
pub fn settled(word: u64, stamp: u64) -> Option<u64>
    requires { stamp < stamps }
    ensures value { result ≡ settled_word word stamp }
{
    if generation_of(word, stamp).is_some() {
        return Some(word);
    }
    let generation = generation_in(word);
    if generation == LAST_GENERATION {
        return None;
    }
    Some((u64::from(generation) + 1) * STAMPS + stamp)
}

/// The generation in a word, if its stamp is this one. It is right also if another tap wrote the
/// word.
pub fn generation_of(word: u64, stamp: u64) -> Option<u32>
    ensures value { result ≡ generation_by word stamp }
    ensures real { IfSome result (λ g. (1 ≤ g) × (g ≤ last_generation)) }
{
    let generation = generation_in(word);
    if generation != 0 && word % STAMPS == stamp {
        Some(generation)
    } else {
        None
    }
}

/// The generation of a file with this stamp, after the attempt to exchange its word. `loaded` was
/// read before, and `found` was there at the exchange. If they are equal, the new word was written
/// and its generation counts. Otherwise another tap was first, and its word counts if it has the
/// same stamp.
pub fn generation_after(loaded: u64, found: u64, stamp: u64) -> Option<u32>
    requires { stamp < stamps }
    ensures value { result ≡ spec.generation_after loaded found stamp }
    ensures real { IfSome result (λ g. (1 ≤ g) × (g ≤ last_generation)) }
{
    if found == loaded {
        generation_of(settled(loaded, stamp)?, stamp)
    } else {
        generation_of(found, stamp)
    }
}

/// The generation of a file with this stamp: that of the loaded word if the stamp is the same,
/// otherwise the next one, which is written to the word. Never waits for another tap.
pub fn settle_word(word: &AtomicU64, loaded: u64, stamp: u64) -> Option<u32>
    requires { stamp < stamps }
    ensures { IfSome result (λ g. (1 ≤ g) × (g ≤ last_generation)) }
{
    let wanted = settled(loaded, stamp)?;
    if wanted == loaded {
        return generation_after(loaded, loaded, stamp);
    }
    let found = match word.compare_exchange(loaded, wanted, Ordering::SeqCst, Ordering::SeqCst) {
        Ok(_) => loaded,
        Err(found) => found,
    };
    generation_after(loaded, found, stamp)
}
