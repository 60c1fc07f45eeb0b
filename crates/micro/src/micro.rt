//! A microcache of two items.
ghost use Rattle.std.specs.Prelude.{◌≡◌, ℕ, ◌<◌, ◌↔◌, List, [], ◌∷◌, ◌++◌, length, slice_get};
ghost use Rattle.std.specs.Prelude.{false, IsTrue, IsFalse, IsSome, IsNone, IfSome};
ghost use Rattle.std.specs.List.{find, Contains};
ghost use Rattle.std.specs.Option.{option_copied, option_to_list, option_map_or};
ghost use Rattle.micro.specs.Items.{has_key, HasKey, AreItems, key_first, placed};
ghost use Rattle.micro.specs.Recent.{recent, AreRecent};

use crate::keyed::Keyed;
use std::marker::Model;
use std::mem::{replace, swap};
use tile_layout::TileKey;

/// The items that a caller used last, at most two. Clauses see their list, the most recent first.
/// It allocates nothing, and an item that leaves is returned.
#[derive(Drop)]
pub struct Micro<P: Keyed> {
    first: Option<P>,
    second: Option<P>,
}

impl<P: Keyed> Model for Micro<P> {
    ghost use Rattle.std.specs.Prelude.{List};
    ghost use Rattle.micro.specs.Items.{items_in, IsMicro};

    ghost Value = { List P };

    ghost view = { λ m. items_in m.first m.second };

    ghost invariant = { λ m. IsMicro P.own_key m.first m.second };
}

impl<P: Keyed> Micro<P> {
    /// No items.
    pub fn new() -> Micro<P>
        ensures value { result ≡ [] }
        ensures latest { AreRecent P.own_key [] result }
    {
        Micro {
            first: None,
            second: None,
        }
    }

    /// Whether an item has the key. If so, moves it to the front.
    pub fn find(&mut self, key: TileKey) -> bool
        // The answer, and the items left.
        ensures value { IsTrue result ↔ HasKey P.own_key key self.old }
        ensures moved { self.new ≡ key_first P.own_key key self.old }
        ensures same { IsFalse result → self.new ≡ self.old }
        // If the items belonged to the two keys that the caller asked for last, they still do.
        ensures hit { (asked : List ℕ) → AreRecent P.own_key asked self.old →
            (IsTrue result ↔ Contains (recent asked) key) }
        ensures latest { (asked : List ℕ) → AreRecent P.own_key asked self.old →
            IsTrue result → AreRecent P.own_key (asked ++ key ∷ []) self.new }
    {
        if is_of(&self.first, key) {
            return true;
        }
        if !is_of(&self.second, key) {
            return false;
        }
        swap(&mut self.first, &mut self.second);
        true
    }

    /// Whether an item has the key. Moves nothing.
    pub fn has(&self, key: TileKey) -> bool
        ensures value { IsTrue result ↔ HasKey P.own_key key self.now }
        ensures valid { AreItems P.own_key self.now }
    {
        is_of(&self.first, key) || is_of(&self.second, key)
    }

    /// The item with the key.
    pub fn peek(&self, key: TileKey) -> Option<&P>
        ensures value { option_copied result ≡ find (has_key P.own_key key) self.now }
        ensures some { IsSome result ↔ HasKey P.own_key key self.now }
        ensures keyed { IfSome result (λ p. P.own_key p.now ≡ key) }
    {
        match (&self.first, &self.second) {
            (Some(p), _) if p.key() == key => Some(p),
            (_, Some(p)) if p.key() == key => Some(p),
            _ => None,
        }
    }

    /// The most recent item.
    pub fn first(&self) -> Option<&P>
        ensures value { option_copied result ≡ slice_get self.now 0 }
        ensures none { IsNone result ↔ (self.now ≡ []) }
    {
        self.first.as_ref()
    }

    /// The second most recent item.
    pub fn second(&self) -> Option<&P>
        ensures value { option_copied result ≡ slice_get self.now 1 }
    {
        self.second.as_ref()
    }

    /// Puts an item first. If two were there, the second is returned.
    pub fn place(&mut self, p: P) -> Option<P>
        requires { ¬ HasKey P.own_key (P.own_key p) self.old }
        // The items left, and the one returned.
        ensures placed { self.new ≡ placed p self.old }
        ensures value { result ≡ slice_get self.old 1 }
        ensures none { IsNone result ↔ (length self.old < 2) }
        ensures kept { self.new ++ option_to_list result ≡ p ∷ self.old }
        // If the items belonged to the two keys that the caller asked for last, they do so with
        // this key too.
        ensures latest { (asked : List ℕ) → AreRecent P.own_key asked self.old →
            AreRecent P.own_key (asked ++ P.own_key p ∷ []) self.new }
    {
        let second = replace(&mut self.first, Some(p));
        replace(&mut self.second, second)
    }

    /// Takes out the last item.
    pub fn take_last(&mut self) -> Option<P>
        ensures value { self.new ++ option_to_list result ≡ self.old }
        ensures none { IsNone result ↔ (self.old ≡ []) }
        ensures latest { IsNone result → AreRecent P.own_key [] self.new }
    {
        match self.second.take() {
            Some(last) => Some(last),
            None => self.first.take(),
        }
    }
}

/// Whether there is an item with the key.
fn is_of<P: Keyed>(item: &Option<P>, key: TileKey) -> bool
    ensures { result ≡ option_map_or (has_key P.own_key key) item.now false }
{
    match item {
        Some(p) => p.key() == key,
        None => false,
    }
}
