//! Buffers output lines on a page, which is written when it is full.

ghost use Rattle.std.specs.Prelude.{◌≡◌, ◌≤◌, [], ◌∷◌, length};
ghost use Rattle.std.specs.Prelude.{IfOk, OnOk};
ghost use Rattle.request_lang.specs.Grammar.{line_feed};
ghost use Rattle.request_lang.specs.Appending.{few_values};
ghost use Rattle.short_text.specs.Number.{fields};
ghost use Rattle.request_lang.specs.Line.{head_of, line_of, values_in};
ghost use Rattle.request_lang.specs.Closing.{worker_line, total_line};
ghost use Rattle.answer_page.specs.Page.{outgoing, AddsOn, PassesOn, page_bytes, part_values};

use request_lang::{
    Answer, Counts, FEW_VALUES, MAX_PART_BYTES, PART_VALUES, head_text, short_line_text,
    total_text, values_text, worker_text,
};
use short_text::ValueTexts;
use std::alloc::{AllocError, Global};
use std::marker::Model;
use tex_world::{Failed, Sink};

/// A page with this many bytes is full.
const PAGE_BYTES: usize = 65536;

/// The bytes that a page can hold: more than a full one, so that any part of a line still fits.
const ROOM_BYTES: usize = PAGE_BYTES + MAX_PART_BYTES;

/// The lines not yet written, and the texts of numbers. Clauses see the bytes of the lines. A part
/// of a line always fits, so no line allocates.
#[derive(Drop)]
pub struct Page {
    text: Vec<u8>,
    texts: ValueTexts,
}

impl Model for Page {
    ghost use Rattle.std.specs.Prelude.{List, ℕ, ◌≤◌, vec_len, vec_capacity};
    ghost use Rattle.answer_page.specs.Page.{room_bytes};

    ghost Value = { List ℕ };

    ghost view = { λ page. page.text.items };

    ghost invariant = { λ page. (vec_len page.text ≤ room_bytes)
        × (room_bytes ≤ vec_capacity page.text) };
}

impl Page {
    /// An empty page.
    pub fn new(alloc: Global) -> Result<Page, AllocError>
        ensures { IfOk result (λ page. page ≡ []) }
    {
        Ok(Page {
            text: Vec::with_capacity(alloc, ROOM_BYTES)?,
            texts: ValueTexts::new(alloc)?,
        })
    }

    /// Writes everything on the page.
    pub fn put<O: Sink>(&mut self, out: &mut O) -> Result<(), Failed>
        ensures passed { AddsOn [] (outgoing O.Sink self.old out.old)
            (outgoing O.Sink self.new out.new) result }
        ensures empty { OnOk result (self.new ≡ []) }
    {
        out.put(&self.text)?;
        self.text.clear();
        Ok(())
    }

    /// Writes the page if a part of a line might not fit.
    fn make_room<O: Sink>(&mut self, out: &mut O) -> Result<(), Failed>
        ensures passed { AddsOn [] (outgoing O.Sink self.old out.old)
            (outgoing O.Sink self.new out.new) result }
        ensures room { OnOk result (length self.new ≤ page_bytes) }
    {
        if self.text.len() <= PAGE_BYTES {
            return Ok(());
        }
        self.put(out)
    }

    /// Adds the line of an answer. Allocates nothing.
    #[tactic(auto, using(crate::proofs::Passing::adds_passes))]
    pub fn pass<O: Sink>(&mut self, out: &mut O, answer: &Answer) -> Result<(), Failed>
        ensures { PassesOn (line_of answer.now) (outgoing O.Sink self.old out.old)
            (outgoing O.Sink self.new out.new) result }
    {
        if answer.values().len() <= FEW_VALUES {
            return self.pass_short(out, answer);
        }
        self.pass_parts(out, answer)
    }

    /// Adds the line of an answer that ends with at most a few values.
    #[inline(always)]
    fn pass_short<O: Sink>(&mut self, out: &mut O, answer: &Answer) -> Result<(), Failed>
        requires few { length (values_in answer.now) ≤ few_values }
        ensures { AddsOn (line_of answer.now) (outgoing O.Sink self.old out.old)
            (outgoing O.Sink self.new out.new) result }
    {
        self.make_room(out)?;
        if let Err(_refused) = short_line_text(&self.texts, answer, &mut self.text) {
            unreachable!()
        }
        Ok(())
    }

    /// Adds the line of an answer in parts.
    fn pass_parts<O: Sink>(&mut self, out: &mut O, answer: &Answer) -> Result<(), Failed>
        ensures { PassesOn (line_of answer.now) (outgoing O.Sink self.old out.old)
            (outgoing O.Sink self.new out.new) result }
    {
        if let Err(failed) = self.pass_head(out, answer) {
            return Err(failed);
        }
        if let Err(failed) = self.pass_values(out, answer.values()) {
            return Err(failed);
        }
        self.pass_end(out)
    }

    /// Adds a line up to its values.
    fn pass_head<O: Sink>(&mut self, out: &mut O, answer: &Answer) -> Result<(), Failed>
        ensures { AddsOn (head_of answer.now) (outgoing O.Sink self.old out.old)
            (outgoing O.Sink self.new out.new) result }
    {
        self.make_room(out)?;
        if let Err(_refused) = head_text(answer, &mut self.text) {
            unreachable!()
        }
        Ok(())
    }

    /// Adds values, each after a space.
    fn pass_values<O: Sink>(&mut self, out: &mut O, values: &[u16]) -> Result<(), Failed>
        ensures { PassesOn (fields values.now) (outgoing O.Sink self.old out.old)
            (outgoing O.Sink self.new out.new) result }
    {
        let mut rest = values;
        'parts: while !rest.is_empty() {
            let (part, after) = rest.split_at(rest.len().min(PART_VALUES));
            if let Err(failed) = self.pass_part(out, part) {
                return Err(failed);
            }
            rest = after;
        }
        Ok(())
    }

    /// Adds a few values, each after a space.
    fn pass_part<O: Sink>(&mut self, out: &mut O, values: &[u16]) -> Result<(), Failed>
        requires few { length values.now ≤ part_values }
        ensures { AddsOn (fields values.now) (outgoing O.Sink self.old out.old)
            (outgoing O.Sink self.new out.new) result }
    {
        self.make_room(out)?;
        if let Err(_refused) = values_text(&self.texts, values, &mut self.text) {
            unreachable!()
        }
        Ok(())
    }

    /// Ends a line.
    fn pass_end<O: Sink>(&mut self, out: &mut O) -> Result<(), Failed>
        ensures { AddsOn (line_feed ∷ []) (outgoing O.Sink self.old out.old)
            (outgoing O.Sink self.new out.new) result }
    {
        self.make_room(out)?;
        if let Err(_refused) = self.text.push(b'\n') {
            unreachable!()
        }
        Ok(())
    }

    /// Adds the line of a worker. Allocates nothing.
    pub fn pass_worker<O: Sink>(
        &mut self,
        out: &mut O,
        worker: u32,
        counts: Counts,
    ) -> Result<(), Failed>
        ensures { AddsOn (worker_line worker counts) (outgoing O.Sink self.old out.old)
            (outgoing O.Sink self.new out.new) result }
    {
        self.make_room(out)?;
        if let Err(_refused) = worker_text(worker, counts, &mut self.text) {
            unreachable!()
        }
        Ok(())
    }

    /// Adds the line with the numbers of lines and refusals. Allocates nothing.
    pub fn pass_total<O: Sink>(
        &mut self,
        out: &mut O,
        total: u64,
        refused: u64,
    ) -> Result<(), Failed>
        ensures { AddsOn (total_line total refused) (outgoing O.Sink self.old out.old)
            (outgoing O.Sink self.new out.new) result }
    {
        self.make_room(out)?;
        if let Err(_refused) = total_text(total, refused, &mut self.text) {
            unreachable!()
        }
        Ok(())
    }
}
