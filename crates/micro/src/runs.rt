//! A law about whole sequences of calls.
ghost use Rattle.std.specs.Prelude.{◌≡◌, ℕ, Bool, List, [], count_by};
ghost use Rattle.micro.specs.Recent.{hits, hit_count, AreRecent};
ghost use Rattle.micro.specs.Runs.{AreAsked};

use crate::keyed::Keyed;

/// A law of every sequence of calls that starts empty and places an item whenever `find` fails.
/// Then `find` succeeds exactly for the hits, and the items are those of the two latest keys.
pub fn answers_are_hits<P: Keyed>()
    ensures answers { (asked : List ℕ) (answers : List Bool) (items : List P) →
        AreAsked P.own_key [] asked answers items → answers ≡ hits asked }
    ensures count { (asked : List ℕ) (answers : List Bool) (items : List P) →
        AreAsked P.own_key [] asked answers items →
        count_by (λ answer. answer) answers ≡ hit_count asked }
    ensures latest { (asked : List ℕ) (answers : List Bool) (items : List P) →
        AreAsked P.own_key [] asked answers items → AreRecent P.own_key asked items }
{}
