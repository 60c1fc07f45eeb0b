//! Makes lookups from drawn numbers.

ghost use Rattle.std.specs.Prelude.{◌≡◌, ◌++◌, ◌∷◌, [], string_bytes, OnOk};
ghost use Rattle.request_lang.specs.Grammar.{line_feed};
ghost use Rattle.sample_run.specs.SampleLookup as spec;

use crate::draws::Draws;
use std::alloc::AllocError;
use texel_filter::{Filter, TexRequest, Wrap};

/// A lookup in a sample file.
#[derive(Clone, Copy, Debug, PartialEq, Eq)]
pub(crate) struct SampleLookup {
    pub(crate) request: TexRequest,
    /// The number of the file.
    pub(crate) file: u64,
}

/// A coordinate, from half an image before the edge to half an image after the other edge.
fn coordinate(drawn: u64) -> i32
    ensures { result ≡ spec.coordinate drawn }
{
    (drawn % 131072) as i32 - 32768
}

/// A wrap.
fn wrap(drawn: u64) -> Wrap
    ensures { result ≡ spec.wrap drawn }
{
    match drawn % 4 {
        0 => Wrap::Black,
        1 => Wrap::Clamp,
        2 => Wrap::Periodic,
        _ => Wrap::Mirror,
    }
}

/// A filter.
fn filter(drawn: u64) -> Filter
    ensures { result ≡ spec.filter drawn }
{
    match drawn % 3 {
        0 => Filter::Closest,
        1 => Filter::Bilinear,
        _ => Filter::Trilinear,
    }
}

/// The next lookup. Draws eight numbers.
pub(crate) fn next_lookup(draws: &mut Draws) -> SampleLookup
    ensures value { result ≡ spec.lookup draws.old }
    ensures state { draws.new ≡ spec.behind_lookup draws.old }
{
    let s = coordinate(draws.draw());
    let t = coordinate(draws.draw());
    let lod = (draws.draw() % 524288) as u32;
    let swrap = wrap(draws.draw());
    let twrap = wrap(draws.draw());
    let filter = filter(draws.draw());
    let nch = (1 + draws.draw() % 4) as u32;
    let file = draws.draw() % 8;
    let request = TexRequest {
        s,
        t,
        lod,
        swrap,
        twrap,
        filter,
        nch,
    };
    SampleLookup { request, file }
}

/// The word for a wrap.
fn wrap_word(wrap: Wrap) -> &'static str
    ensures { result.now ≡ spec.wrap_word wrap }
{
    match wrap {
        Wrap::Black => "black",
        Wrap::Clamp => "clamp",
        Wrap::Periodic => "periodic",
        Wrap::Mirror => "mirror",
    }
}

/// The word for a filter.
fn filter_word(filter: Filter) -> &'static str
    ensures { result.now ≡ spec.filter_word filter }
{
    match filter {
        Filter::Closest => "closest",
        Filter::Bilinear => "bilinear",
        Filter::Trilinear => "trilinear",
    }
}

/// Appends the line of a lookup, with its line feed.
pub(crate) fn push_lookup(text: &mut String, lookup: &SampleLookup) -> Result<(), AllocError>
    ensures { OnOk result (string_bytes text.new
        ≡ string_bytes text.old ++ (spec.lookup_text lookup.now ++ line_feed ∷ [])) }
{
    let TexRequest { s, t, lod, nch, .. } = lookup.request;
    let swrap = wrap_word(lookup.request.swrap);
    let twrap = wrap_word(lookup.request.twrap);
    let filter = filter_word(lookup.request.filter);
    let file = lookup.file;
    writeln!(
        text,
        "tex {s} {t} {lod} {swrap} {twrap} {filter} {nch} sample{file}.tif"
    )
}
