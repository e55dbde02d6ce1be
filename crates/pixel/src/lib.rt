// The places that a pixel of a view covers. 01: Burst and render.
#![tactic(auto)]

ghost use Rattle.std.specs.Prelude.{◌≡◌, ◌≤◌, ◌<◌, pos};
ghost use Rattle.std.specs.Option.{option_map};
ghost use Rattle.rules.specs.Pixel.{pixel_edge, moved, range_from};
ghost use Rattle.rules.specs.Refusal.{most_samples};
ghost use Rattle.float.specs.Places.{place_of};
ghost use Rattle.pixel.specs.Ranges.{view_as, range_as, end_at, cover_by};

use float::Place;

#[derive(Clone, Copy)]
pub struct View {
    pub start: f64,
    pub spp: f64,
}

// The places [from, to).
#[derive(Clone, Copy)]
pub struct Span {
    pub from: u64,
    pub to: u64,
}

// Where floor(start + px × spp), counted from origin, lies: the product is rounded, then the sum.
#[tactic(auto, unfolding(rules::specs::Pixel::pixel_edge))]
fn edge_in(v: View, px: u64, origin: u64, len: u64) -> Place
    requires pixels { px ≤ 65536 }
    requires counts { origin ≤ len }
    requires few { len ≤ most_samples }
    ensures { result ≡ place_of (moved (pos origin) (pixel_edge (view_as v) px)) len }
{
    // 32 bits convert in one instruction, 64 do only where px is known to be small
    let column = px as u32;
    float::floor_in(v.start + (column as f64) * v.spp, origin, len)
}

// min(max(b, a + 1) + 1, len).
fn end_of(a: u64, b: u64, len: u64) -> u64
    ensures { result ≡ end_at a b len }
{
    a.saturating_add(1).max(b).saturating_add(1).min(len)
}

// From where a lies to the end that b gives; beyond len is as good as len.
fn cover(a: Place, b: Place, len: u64) -> Option<Span>
    ensures { option_map range_as result ≡ cover_by a b len }
{
    if len == 0 {
        return None;
    }
    let last = match b {
        Place::Below => return None,
        Place::At(n) => n,
        Place::Beyond => len,
    };
    let from = match a {
        Place::Below => 0,
        Place::At(n) => n,
        Place::Beyond => return None,
    };
    Some(Span {
        from,
        to: end_of(from, last, len),
    })
}

// The places that pixel px covers, of len stored ones, where the view counts from origin.
#[tactic(auto, using(crate::proofs::Covers::covers))]
pub fn pixel_range(v: View, px: u64, origin: u64, len: u64) -> Option<Span>
    requires pixels { px < 65536 }
    requires counts { origin ≤ len }
    requires few { len ≤ most_samples }
    ensures { option_map range_as result ≡ range_from origin (view_as v) len px }
{
    let a = edge_in(v, px, origin, len);
    let b = edge_in(v, px + 1, origin, len);
    cover(a, b, len)
}
