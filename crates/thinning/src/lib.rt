// Hit-or-miss by one mask and thinning by the house set: public.
#![tactic(auto)]

mod edges;

ghost use Rattle.std.specs.Prelude.{◌≡◌, false, [], ◌∷◌, ◌*◌, ◌<◌, ◌≤◌, T, length};
ghost use Rattle.morphology.specs.Answers.{outcome};
ghost use Rattle.morphology.specs.Element.{is_mask};
ghost use Rattle.morphology.specs.Image.{image_set, pack, is_clean};
ghost use Rattle.morphology.specs.Operations.{hit_or_miss, hit_rows, thin_rows, thin as thin_whole};
ghost use Rattle.morphology.specs.Refusals.{first_refusal, row6};
ghost use Rattle.morphology.specs.Thinning.{hit, golay_l, thin_step, thin_pass};
ghost use Rattle.refusals.specs.Refusal.{answer_of, refusal_of};
ghost use Rattle.thinning.specs.Hits.{widened};
ghost use Rattle.thinning.specs.Passes.{Leaves, Ended};
ghost use Rattle.thinning.specs.Thinned.{answer_of as thinned_answer};

use raster::{Frame, Join};
pub use refusals::Refusal;

// The answer of thinning: passes made with the idle one, points removed, area left.
#[derive(Clone, Copy, Debug, PartialEq, Eq)]
pub struct Thinned {
    pub passes: u32,
    pub removed: u32,
    pub left: u32,
}

// A hit-or-miss mask: foreground, background.
#[derive(Clone, Copy)]
struct Mask {
    fg: u32,
    bg: u32,
}

// The house set, Golay's L and its turns, in order: x is foreground, o background.
//
//     ooo  .oo  x.o  .x.  xxx  .x.  o.x  oo.
//     .x.  xxo  xxo  xxo  .x.  oxx  oxx  oxx
//     xxx  .x.  x.o  .oo  ooo  oo.  o.x  .x.
const GOLAY_L: [Mask; 8] = [
    Mask { fg: 464, bg: 7 },
    Mask { fg: 152, bg: 38 },
    Mask { fg: 89, bg: 292 },
    Mask { fg: 26, bg: 416 },
    Mask { fg: 23, bg: 448 },
    Mask { fg: 50, bg: 200 },
    Mask { fg: 308, bg: 73 },
    Mask { fg: 176, bg: 11 },
];

// A mask's numbers end below this.
const MASK_END: u32 = 512;

// A mask's bit of the centre.
const CENTRE: u32 = 16;

// The element with the offsets of a mask's number.
fn widen(mask: u32) -> u32
    requires { mask < 512 }
    ensures { result ≡ widened mask }
{
    mask % 8 * 64 + mask / 8 % 8 * 2048 + mask / 64 * 65536
}

// The points of an image that a mask hits. The centre is foreground, so that out begins with the image. What is asked beyond
// the sheet does not matter: it is asked at the edge alone, where nothing is hit.
fn hit_plane(f: Frame, mask: Mask, image: &[u8], out: &mut [u8])
    requires { (length image.now ≡ f.h * f.r) × (length out.old ≡ f.h * f.r) × T (is_mask (mask.fg, mask.bg)) × T (is_clean f.w f.h image.now) }
    ensures { out.new ≡ pack f.w f.h (hit f.w f.h (mask.fg, mask.bg) (image_set f.w f.h image.now)) }
{
    raster::copy(image, out);
    let ink = Join {
        dilating: false,
        inverse: false,
    };
    let blank = Join {
        dilating: false,
        inverse: true,
    };
    neighbours::join_plane(ink, image, out, f, widen(mask.fg) - elements::ORIGIN);
    neighbours::join_plane(blank, image, out, f, widen(mask.bg));
    edges::clear(f, out);
}

// Row 6: a mask has a bit above 8, lacks the centre in the foreground, or its two numbers overlap.
fn bad_mask(fg: u32, bg: u32) -> bool
    ensures { result ≡ (row6 (fg, bg)).1 }
{
    if fg >= MASK_END {
        return true;
    }
    if bg >= MASK_END {
        return true;
    }
    if fg / CENTRE % 2 == 0 {
        return true;
    }
    fg & bg != 0
}

// The rows of the table of refusals that hit-or-miss has.
fn hit_refusal(w: u32, h: u32, fg: u32, bg: u32, image: &[u8], out: &[u8]) -> Result<(), Refusal>
    ensures { refusal_of result ≡ first_refusal (hit_rows w h (fg, bg) image.now out.now) }
{
    Refusal::Sides.when(refusals::bad_sides(w, h))?;
    let out_wrong = refusals::not_plane(w, h, out);
    refusals::image_rows(w, h, image, out_wrong, false)?;
    Refusal::Mask.when(bad_mask(fg, bg))
}

// Hit-or-miss by one mask: the points of image that it hits, into out.
pub fn hit_or_miss(
    w: u32,
    h: u32,
    fg: u32,
    bg: u32,
    image: &[u8],
    out: &mut [u8],
) -> Result<u32, Refusal>
    ensures { outcome (answer_of result) (out.new ∷ []) ≡ hit_or_miss w h (fg, bg) image.now out.old }
{
    hit_refusal(w, h, fg, bg, image, &out[..])?;
    let f = Frame::new(w as usize, h as usize);
    hit_plane(f, Mask { fg, bg }, image, out);
    let area = raster::count_ones(&out[..]);
    Ok(area)
}

// A step of thinning: all points that a mask hits are removed at once. The hits stand in the first plane of work.
fn thin_step(f: Frame, mask: Mask, image: &mut [u8], work: &mut [u8])
    requires { (length image.old ≡ f.p) × (f.p ≤ length work.old) × T (is_mask (mask.fg, mask.bg)) × T (is_clean f.w f.h image.old) }
    ensures { Leaves f.p (thin_step f.w f.h (mask.fg, mask.bg) image.old) image.new work.old work.new }
{
    let Frame { p, .. } = f;
    hit_plane(f, mask, &image[..], &mut work[..p]);
    raster::subtract(&work[..p], image);
}

// A pass of thinning: a step by each mask of the house set, in order, each on the result of the last.
fn thin_pass(f: Frame, image: &mut [u8], work: &mut [u8])
    requires { (length image.old ≡ f.p) × (f.p ≤ length work.old) × T (is_clean f.w f.h image.old) }
    ensures { Leaves f.p (thin_pass f.w f.h golay_l image.old) image.new work.old work.new }
{
    for mask in &GOLAY_L {
        thin_step(f, *mask, image, work);
    }
}

// Passes of thinning until one removes nothing.
fn thin_passes(f: Frame, image: &mut [u8], work: &mut [u8]) -> Thinned
    requires { (length image.old ≡ f.p) × (f.p ≤ length work.old) × T (is_clean f.w f.h image.old) }
    ensures { Ended f.w f.h f.p image.old image.new work.old work.new result.passes result.removed result.left }
{
    let before = raster::count_ones(&image[..]);
    let mut left = before;
    let mut passes: u32 = 0;
    loop {
        thin_pass(f, image, work);
        passes += 1;
        let area = raster::count_ones(&image[..]);
        if area == left {
            return Thinned {
                passes,
                removed: before - left,
                left,
            };
        }
        left = area;
    }
}

// The rows of the table of refusals that thinning has.
fn thin_refusal(w: u32, h: u32, image: &[u8], work: &[u8]) -> Result<(), Refusal>
    ensures { refusal_of result ≡ first_refusal (thin_rows w h image.now work.now) }
{
    Refusal::Sides.when(refusals::bad_sides(w, h))?;
    let short = refusals::short_work(w, h, work);
    refusals::image_rows(w, h, image, false, short)
}

// Thinning by the house set: the image in place.
pub fn thin(w: u32, h: u32, image: &mut [u8], work: &mut [u8]) -> Result<Thinned, Refusal>
    ensures { outcome (thinned_answer result) (image.new ∷ work.new ∷ [])
        ≡ thin_whole w h image.old work.old }
{
    thin_refusal(w, h, &image[..], &work[..])?;
    let f = Frame::new(w as usize, h as usize);
    let done = thin_passes(f, image, work);
    iteration::clear_work(f.p, work);
    Ok(done)
}
