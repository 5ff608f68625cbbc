// The reader of codes: public.
#![tactic(auto)]

ghost use Rattle.std.specs.Prelude.{[], ◌∷◌, ◌≡◌, ◌+◌, ◌*◌, ◌/◌, ◌<◌, ◌≤◌, ◌^◌, T, length, drop};
ghost use Rattle.std.proofs.Math.Option.{some};
ghost use Rattle.coding.specs.Symbols.{symbols_of};
ghost use Rattle.covers.specs.Grown.{CoverStart};
ghost use Rattle.morphology.specs.Answers.{outcome};
ghost use Rattle.morphology.specs.Element.{offsets, is_element};
ghost use Rattle.morphology.specs.Image.{plane_bytes};
ghost use Rattle.morphology.specs.Refusals.{max_side};
ghost use Rattle.reading.specs.Decoding.{decoded, decoding};
ghost use Rattle.reading.specs.Maps.{code_rows, code_set};
ghost use Rattle.reading.specs.Splits.{is_padding};
ghost use Rattle.refusals.specs.Refusal.{answer_of, refusal_of};
ghost use Rattle.decoding.specs.Marks.{mark_of};
ghost use Rattle.decoding.specs.Reads.{StepRead, SizesEnd, CodeRead};

use raster::Frame;
pub use refusals::Refusal;

// What sizes give: the symbol after them, and whether what they cover, eroded, is what larger sizes cover.
#[derive(Clone, Copy)]
struct Joined {
    at: usize,
    chained: bool,
}

// One size, unless it is refused: what the larger ones cover, in the first two planes, is grown, and its points, from symbol `at` on, are joined to that.
fn read_step(f: Frame, element: u32, stream: &[u8], at: usize, work: &mut [u8]) -> Option<Joined>
    requires { CoverStart f.w f.h f.r f.p element work.old × (0 < f.h) × (at < 2 ^ 36) }
    ensures { StepRead f.w f.h f.p (offsets element) (symbols_of stream.now) at work.old work.new result }
{
    let Frame { p, .. } = f;
    if covers::grow(f, element, work) {
        return None;
    }
    let end = placing::read_size(stream, at, f, &mut work[p..2 * p])?;
    let chained = covers::is_eroded(f, element, work);
    raster::copy_down(work, p, p);
    Some(Joined { at: end, chained })
}

// The sizes from the largest down to 0, in the first plane at last, unless one is refused.
fn read_sizes(
    f: Frame,
    element: u32,
    largest: u32,
    stream: &[u8],
    work: &mut [u8],
) -> Option<Joined>
    requires { (0 < f.h) × (3 * f.p ≤ length work.old) × T (is_element element) × (largest < max_side) }
    ensures { SizesEnd f.w f.h f.p (offsets element) largest stream.now work.old work.new result }
{
    let Frame { p, .. } = f;
    work[..2 * p].fill(0);
    let first = read_step(f, element, stream, 0, work)?;
    let mut j = first.at;
    let mut whole = first.chained;
    let held = raster::has_ink(&work[..p]);
    let empty = !held;
    if empty {
        return None;
    }
    for _ in 0..largest {
        let next = read_step(f, element, stream, j, work)?;
        j = next.at;
        whole &= next.chained;
    }
    Some(Joined {
        at: j,
        chained: whole,
    })
}

// Whether nothing but the rest of a byte, 0, follows from symbol `at` on.
fn is_padding(stream: &[u8], at: usize) -> bool
    requires { at < 2 ^ 40 }
    ensures { result ≡ is_padding (drop at (symbols_of stream.now)) }
{
    let i = at / 4;
    if i >= stream.len() {
        return true;
    }
    if at % 4 == 0 {
        return false;
    }
    let more = i + 1 < stream.len();
    if more {
        return false;
    }
    stream[i] % (1u8 << (8 - 2 * (at % 4))) == 0
}

// The scan of a stream with its largest size, in the first plane, unless it is refused.
fn read_map(
    f: Frame,
    element: u32,
    largest: u32,
    stream: &[u8],
    work: &mut [u8],
) -> Result<(), Refusal>
    requires { (0 < f.h) × (3 * f.p ≤ length work.old) × T (is_element element) }
    ensures { CodeRead f.w f.h f.p (offsets element) (some largest) stream.now work.old work.new (refusal_of result) }
{
    if largest >= refusals::MAX_SIDE {
        return Err(Refusal::Stream);
    }
    match read_sizes(f, element, largest, stream, work) {
        None => Err(Refusal::Stream),
        Some(Joined { at, chained }) => {
            if !is_padding(stream, at) {
                return Err(Refusal::Rest);
            }
            Refusal::Map.when(!chained)
        }
    }
}

// The scan of a code with its largest size, none where it is blank, in the first plane of work, unless it is refused: by work alone, five planes of it.
pub fn read_code(
    f: Frame,
    element: u32,
    largest: Option<u32>,
    stream: &[u8],
    work: &mut [u8],
) -> Result<(), Refusal>
    requires { (0 < f.h) × (5 * plane_bytes f.w f.h ≤ length work.old) × T (is_element element) }
    ensures { CodeRead f.w f.h (plane_bytes f.w f.h) (offsets element) (mark_of largest) stream.now work.old work.new (refusal_of result) }
{
    let Frame { p, .. } = f;
    match largest {
        None => {
            work[..p].fill(0);
            Refusal::Rest.when(stream.len() != 0)
        }
        Some(n) => read_map(f, element, n, stream, work),
    }
}

// The code read in work, then handed out.
fn decode_into(
    f: Frame,
    element: u32,
    largest: Option<u32>,
    stream: &[u8],
    image: &mut [u8],
    work: &mut [u8],
) -> Result<u32, Refusal>
    requires { (0 < f.h) × (length image.old ≡ plane_bytes f.w f.h) × (5 * plane_bytes f.w f.h ≤ length work.old) × T (is_element element) }
    ensures { outcome (answer_of result) (image.new ∷ work.new ∷ [])
        ≡ decoding f.w f.h (code_rows f.w f.h (offsets element) (mark_of largest) stream.now) (code_set f.w f.h (offsets element) (mark_of largest) stream.now)
        image.old work.old }
{
    let Frame { p, .. } = f;
    let planes = 5 * p;
    let read = read_code(f, element, largest, stream, work);
    if let Err(refusal) = read {
        work[..planes].fill(0);
        return Err(refusal);
    }
    let ones = raster::count_ones(&work[..p]);
    raster::copy(&work[..p], image);
    work[..planes].fill(0);
    Ok(ones)
}

// The image of a code with its largest size, none where it is blank, into image, which is only written.
pub fn decode(
    w: u32,
    h: u32,
    element: u32,
    largest: Option<u32>,
    stream: &[u8],
    image: &mut [u8],
    work: &mut [u8],
) -> Result<u32, Refusal>
    ensures { outcome (answer_of result) (image.new ∷ work.new ∷ [])
        ≡ decoded w h element (mark_of largest) stream.now image.old work.old }
{
    let wrong = refusals::not_plane(w, h, &image[..]);
    let short = refusals::short_planes(5, w, h, &work[..]);
    refusals::shape_rows(w, h, element, wrong, short, false)?;
    let f = Frame::new(w as usize, h as usize);
    decode_into(f, element, largest, stream, image, work)
}
