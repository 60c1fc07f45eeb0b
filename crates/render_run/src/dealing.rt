//! Divides a list into rounds.

ghost use Rattle.std.specs.Prelude.{◌≡◌, ◌<◌, ◌≤◌, ◌+◌, length};
ghost use Rattle.render_run.specs.Dealing as spec;

use request_lang::Request;
use texel_values::Region;

/// The most texels in all regions of a round together.
const MAX_ROUND_TEXELS: u64 = 4194304;

/// The number of requests in the round that begins with the first of these.
pub(crate) fn round_len(requests: &[Request]) -> usize
    ensures round { spec.IsRound requests.now result }
    ensures within { result ≤ length requests.now }
    ensures some { 0 < length requests.now → 0 < result }
{
    let mut texels = 0;
    let mut count = 0;
    'dealt: while count < requests.len() {
        let request = &requests[count];
        let more = texels_asked(request);
        if texels + more > MAX_ROUND_TEXELS {
            return count;
        }
        count += 1;
        texels += more;
        if is_sync(request) {
            return count;
        }
    }
    count
}

/// Whether the request ends its round.
fn is_sync(request: &Request) -> bool
    ensures { result ≡ spec.is_sync request.now }
{
    matches!(request, Request::Sync)
}

/// The number of texels in the region of a request; 0 if they are too many for a region.
fn texels_asked(request: &Request) -> u64
    ensures value { result ≡ spec.texels_asked request.now }
    ensures few { result ≤ spec.max_texels_asked }
{
    match request {
        Request::Pixels { w, h, .. } => {
            let region = Region {
                level: 0,
                x: 0,
                y: 0,
                w: *w,
                h: *h,
            };
            if region.is_too_large() {
                0
            } else {
                u64::from(*w) * u64::from(*h)
            }
        }
        _ => 0,
    }
}
