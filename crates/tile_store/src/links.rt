//! A doubly linked list of places, in arrays.
ghost use Rattle.std.specs.Prelude.{◌≡◌, ℕ, ◌+◌, ◌<◌, ◌^◌, ◌≤◌, [], ◌∷◌, ◌++◌, List};
ghost use Rattle.std.specs.Prelude.{length, replicate, nat_eq, IfOk, IsTrue, IsFalse};
ghost use Rattle.std.specs.List.{IsDistinct};
ghost use Rattle.tile_store.specs.Links.{linked, is_in, without, last_of};

use std::alloc::Global;
use std::marker::Model;
use tex_world::NoMemory;

/// Some of a fixed number of places, in an order. Clauses see the list of these places, and the
/// number of all places.
#[derive(Drop)]
pub struct Links {
    // The next and the previous place of each. The root, whose index is the number of places,
    // closes the ring.
    next: Vec<u32>,
    prev: Vec<u32>,
    root: u32,
    len: u32,
}

impl Model for Links {
    ghost use Rattle.tile_store.specs.Links.{Linked, linked, walk, AreLinks};

    ghost Value = { Linked };

    ghost view = { λ l. linked (walk l.next.items l.len l.root) l.root };

    ghost invariant = { λ l. AreLinks l.next.items l.prev.items l.root l.len };
}

impl Links {
    /// `places` places, none of which is in the order.
    pub(crate) fn new(alloc: Global, places: u32) -> Result<Links, NoMemory>
        ensures { IfOk result (λ links. links ≡ linked [] places) }
    {
        Ok(Links {
            next: all_at(alloc, places, places as usize + 1)?,
            prev: all_at(alloc, places, places as usize + 1)?,
            root: places,
            len: 0,
        })
    }

    /// The number of places, in the order or not.
    pub(crate) fn places(&self) -> u32
        ensures { result ≡ self.now.places }
    {
        self.root
    }

    /// The number of places in the order.
    pub(crate) fn len(&self) -> u32
        ensures len { result ≡ length self.now.order }
        ensures most { length self.now.order ≤ self.now.places }
        ensures distinct { IsDistinct nat_eq self.now.order }
        ensures below { (p : ℕ) → IsTrue (is_in p self.now.order) → p < self.now.places }
        ensures few { self.now.places < 2 ^ 32 }
    {
        self.len
    }

    /// The last place of the order.
    pub(crate) fn last(&self) -> Option<u32>
        ensures { result ≡ last_of self.now.order }
    {
        let place = self.prev[self.root as usize];
        if place == self.root {
            None
        } else {
            Some(place)
        }
    }

    /// The place before another one.
    pub(crate) fn before(&self, place: u32) -> Option<u32>
        requires { IsTrue (is_in place self.now.order) }
        ensures { (front back : List ℕ) → self.now.order ≡ front ++ place ∷ back
            → result ≡ last_of front }
    {
        let before = self.prev[place as usize];
        if before == self.root {
            None
        } else {
            Some(before)
        }
    }

    /// Removes a place from the order.
    pub(crate) fn remove(&mut self, place: u32)
        requires { IsTrue (is_in place self.old.order) }
        ensures { self.new ≡ linked (without place self.old.order) self.old.places }
    {
        let before = self.prev[place as usize];
        let after = self.next[place as usize];
        self.next[before as usize] = after;
        self.prev[after as usize] = before;
        self.len -= 1;
    }

    /// Adds a place at the front.
    pub(crate) fn push_front(&mut self, place: u32)
        requires free { IsFalse (is_in place self.old.order) }
        requires place { place < self.old.places }
        ensures { self.new ≡ linked (place ∷ self.old.order) self.old.places }
    {
        let after = self.next[self.root as usize];
        self.next[self.root as usize] = place;
        self.prev[place as usize] = self.root;
        self.next[place as usize] = after;
        self.prev[after as usize] = place;
        self.len += 1;
    }

    /// Moves a place of the order to the front.
    pub(crate) fn to_front(&mut self, place: u32)
        requires { IsTrue (is_in place self.old.order) }
        ensures { self.new ≡ linked (place ∷ without place self.old.order) self.old.places }
    {
        // needed by the proof: no place is in the order twice
        let _ = self.len();
        self.remove(place);
        self.push_front(place);
    }
}

/// A list of `count` links, all to one place.
pub(crate) fn all_at(alloc: Global, place: u32, count: usize) -> Result<Vec<u32>, NoMemory>
    ensures { IfOk result (λ links. links.items ≡ replicate count place) }
{
    vec![in alloc; place; count].map_err(|_| NoMemory)
}
