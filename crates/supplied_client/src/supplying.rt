//! The supplies, as C makes them.
ghost use Rattle.std.specs.Prelude.{◌≡◌, length, IfSome};
ghost use Rattle.supplied_tap.specs.Truth.{IsTrueLook, AreTrueLooks, AreTrueBytes, AreTrueRows};
ghost use Rattle.supplied_tap.specs.Supply.{FitsLook, FitsBytes, FitsRows};
ghost use Rattle.supplied_client.specs.Supplies.{KeepsClient, SaysLook, SaysLooks, SaysBytes, SaysRows};
ghost use Rattle.supplied_client.specs.Supplies.{SaysFault};

use crate::answer::{ANSWERED, supply_code_of};
use crate::bytes::Bytes;
use crate::client::Client;
use supplied_tap::{RowsAt, Seen};

impl Client {
    /// Supplies the generation and the length of a file.
    pub fn supply_look(&mut self, file: u32, generation: u32, len: u64) -> u32
        requires told { FitsLook self.old.tap.need file generation
            → IsTrueLook file generation len }
        ensures { SaysLook file generation len result self.old self.new }
    {
        if let Err(e) = self.caller.tap.supply_look(file, generation, len) {
            return supply_code_of(e);
        }
        ANSWERED
    }

    /// Supplies the generations and lengths of several files.
    pub fn supply_looks(&mut self, looks: &[Seen]) -> u32
        requires told { AreTrueLooks looks.now }
        ensures { SaysLooks looks.now result self.old self.new }
    {
        if let Err(e) = self.caller.tap.supply_looks(looks) {
            return supply_code_of(e);
        }
        ANSWERED
    }

    /// Makes a buffer of `size` bytes. `None` if out of memory.
    pub fn room(&mut self, size: usize) -> Option<Bytes>
        ensures size { IfSome result (λ bytes. length bytes.items.items ≡ size) }
        ensures same { KeepsClient self.old self.new }
    {
        match self.caller.tap.room(size) {
            Some(items) => Some(Bytes { items }),
            None => None,
        }
    }

    /// Takes back a buffer that is not needed.
    pub fn give_back(&mut self, bytes: Bytes)
        ensures same { KeepsClient self.old self.new }
    {
        self.caller.tap.give_back(bytes.items);
    }

    /// Supplies bytes of one generation of a file, from a place on.
    pub fn supply_bytes(&mut self, file: u32, generation: u32, at: u64, bytes: Bytes) -> u32
        requires told { FitsBytes self.old.tap.need file generation at (length bytes.items.items)
            → AreTrueBytes file generation at bytes.items.items }
        ensures { SaysBytes file generation at bytes.items.items result self.old self.new }
    {
        if let Err(e) = self
            .caller
            .tap
            .supply_bytes(file, generation, at, bytes.items)
        {
            return supply_code_of(e);
        }
        ANSWERED
    }

    /// Supplies rows of one generation of a file.
    pub fn supply_rows(&mut self, place: RowsAt, bytes: Bytes) -> u32
        requires told { FitsRows self.old.tap.need place (length bytes.items.items)
            → AreTrueRows place bytes.items.items }
        ensures { SaysRows place bytes.items.items result self.old self.new }
    {
        if let Err(e) = self.caller.tap.supply_rows(place, bytes.items) {
            return supply_code_of(e);
        }
        ANSWERED
    }

    /// Says that what the call needs cannot be read.
    pub fn supply_fault(&mut self) -> u32
        ensures { SaysFault result self.old self.new }
    {
        match self.caller.tap.supply_fault() {
            Ok(()) => ANSWERED,
            Err(e) => supply_code_of(e),
        }
    }
}
