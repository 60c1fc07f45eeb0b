//! Parses a line by the form of its request.

ghost use Rattle.std.specs.Prelude.{◌≡◌, true, false, drop};
ghost use Rattle.std.specs.Option.{IfNone, IfSome};
ghost use Rattle.std.specs.Str.{IsAscii, is_utf8};
ghost use Rattle.request_lang.specs.RequestForm as spec;
ghost use Rattle.short_text.specs.Words.{before_space, from_space};
ghost use Rattle.request_lang.specs.LineField.{meaning};
ghost use Rattle.request_lang.specs.Parsing.{Gives};

use crate::cause::{Cause, Refusal};
use crate::line_field::{
    channel_count, filter_mode, footprint_number, name, signed, unsigned, wrap_mode,
};
use crate::request::Request;
use short_text::behind_word;
use std::alloc::Global;
use std::str::{from_utf8, from_utf8_unchecked};
use texel_filter::{DerivRequest, TexRequest};

/// Parses `tex S T LOD SWRAP TWRAP FILTER NCH NAME` after its first word.
#[tactic(auto, unfolding(crate::specs::RequestForm::tex))]
fn tex(alloc: Global, rest: &str) -> Result<Request, Refusal>
    ensures { Gives result (spec.tex rest.now) }
{
    let (s, rest) = signed(rest)?;
    let (t, rest) = signed(rest)?;
    let (lod, rest) = unsigned(rest)?;
    let (swrap, rest) = wrap_mode(rest)?;
    let (twrap, rest) = wrap_mode(rest)?;
    let (filter, rest) = filter_mode(rest)?;
    let (nch, rest) = channel_count(rest)?;
    let name = name(alloc, rest)?;
    let request = TexRequest {
        s,
        t,
        lod,
        swrap,
        twrap,
        filter,
        nch,
    };
    Ok(Request::Tex { request, name })
}

/// Parses `texd S T DSDX DTDX DSDY DTDY SWRAP TWRAP NCH NAME` after its first word.
#[tactic(auto, unfolding(crate::specs::RequestForm::texd))]
fn texd(alloc: Global, rest: &str) -> Result<Request, Refusal>
    ensures { Gives result (spec.texd rest.now) }
{
    let (s, rest) = footprint_number(rest)?;
    let (t, rest) = footprint_number(rest)?;
    let (dsdx, rest) = footprint_number(rest)?;
    let (dtdx, rest) = footprint_number(rest)?;
    let (dsdy, rest) = footprint_number(rest)?;
    let (dtdy, rest) = footprint_number(rest)?;
    let (swrap, rest) = wrap_mode(rest)?;
    let (twrap, rest) = wrap_mode(rest)?;
    let (nch, rest) = channel_count(rest)?;
    let name = name(alloc, rest)?;
    let request = DerivRequest {
        s,
        t,
        dsdx,
        dtdx,
        dsdy,
        dtdy,
        swrap,
        twrap,
        nch,
    };
    Ok(Request::Texd { request, name })
}

/// Parses `pixels LEVEL X Y W H NAME` after its first word.
#[tactic(auto, unfolding(crate::specs::RequestForm::pixels))]
fn pixels(alloc: Global, rest: &str) -> Result<Request, Refusal>
    ensures { Gives result (spec.pixels rest.now) }
{
    let (level, rest) = unsigned(rest)?;
    let (x, rest) = signed(rest)?;
    let (y, rest) = signed(rest)?;
    let (w, rest) = unsigned(rest)?;
    let (h, rest) = unsigned(rest)?;
    let name = name(alloc, rest)?;
    Ok(Request::Pixels {
        level,
        x,
        y,
        w,
        h,
        name,
    })
}

/// Parses `hold LEVEL X Y NAME` after its first word.
#[tactic(auto, unfolding(crate::specs::RequestForm::hold))]
fn hold(alloc: Global, rest: &str) -> Result<Request, Refusal>
    ensures { Gives result (spec.hold rest.now) }
{
    let (level, rest) = unsigned(rest)?;
    let (x, rest) = unsigned(rest)?;
    let (y, rest) = unsigned(rest)?;
    let name = name(alloc, rest)?;
    Ok(Request::Hold { level, x, y, name })
}

/// A request without fields.
fn alone(request: Request, rest: &str) -> Result<Request, Refusal>
    ensures { Gives result (spec.alone request rest.now) }
{
    if !rest.is_empty() {
        return Err(Refusal::Bad(Cause::TrailingText));
    }
    Ok(request)
}

/// Parses a text whose word is not one of the first five.
fn of_later_word(alloc: Global, text: &str) -> Result<Request, Refusal>
    ensures { Gives result
        (spec.formed (meaning (drop 5 spec.forms) (before_space text.now)) (from_space text.now)) }
{
    if let Some(rest) = behind_word(text, "drop") {
        return alone(Request::Drop, rest);
    }
    if let Some(rest) = behind_word(text, "invalidate") {
        let name = name(alloc, rest)?;
        return Ok(Request::Invalidate { name });
    }
    if let Some(rest) = behind_word(text, "renew") {
        let name = name(alloc, rest)?;
        return Ok(Request::Renew { name });
    }
    if let Some(rest) = behind_word(text, "invalidate_all") {
        return alone(Request::InvalidateAll, rest);
    }
    if let Some(rest) = behind_word(text, "stat") {
        return alone(Request::Stat, rest);
    }
    if let Some(rest) = behind_word(text, "sync") {
        return alone(Request::Sync, rest);
    }
    Err(Refusal::Bad(Cause::UnknownWord))
}

/// Parses a text: its word, and what follows it.
fn of_text(alloc: Global, text: &str) -> Result<Request, Refusal>
    ensures { Gives result
        (spec.formed (meaning spec.forms (before_space text.now)) (from_space text.now)) }
{
    if let Some(rest) = behind_word(text, "tex") {
        return tex(alloc, rest);
    }
    if let Some(rest) = behind_word(text, "texd") {
        return texd(alloc, rest);
    }
    if let Some(rest) = behind_word(text, "pixels") {
        return pixels(alloc, rest);
    }
    if let Some(rest) = behind_word(text, "info") {
        let name = name(alloc, rest)?;
        return Ok(Request::Info { name });
    }
    if let Some(rest) = behind_word(text, "hold") {
        return hold(alloc, rest);
    }
    of_later_word(alloc, text)
}

/// A line as text, if it is UTF-8. A line that is known to be ASCII is not checked.
#[tactic(auto, using(short_text::proofs::TextLemmas::utf8_tests))]
fn text_of(line: &[u8], is_ascii: bool) -> Option<&str>
    requires { is_ascii ≡ true → IsAscii line.now }
    ensures some { IfSome result (λ t. (t.now ≡ line.now) × (is_utf8 line.now ≡ true)) }
    ensures none { IfNone result (is_utf8 line.now ≡ false) }
{
    if is_ascii {
        return Some(unsafe { from_utf8_unchecked(line) });
    }
    from_utf8(line).ok()
}

/// Parses a line.
#[tactic(auto, unfolding(crate::specs::RequestForm::request_of))]
pub(crate) fn request_of(alloc: Global, line: &[u8], is_ascii: bool) -> Result<Request, Refusal>
    requires { is_ascii ≡ true → IsAscii line.now }
    ensures { Gives result (spec.request_of line.now) }
{
    let Some(text) = text_of(line, is_ascii) else {
        return Err(Refusal::Bad(Cause::NotUtf8));
    };
    of_text(alloc, text)
}
