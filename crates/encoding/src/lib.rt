// The writer of codes: public.
#![tactic(auto)]

ghost use Rattle.std.specs.Prelude.{◌≡◌, true, List, [], ◌∷◌, map, ℕ, ◌+◌, ◌*◌, ◌/◌, ◌<◌, ◌≤◌, ◌^◌, T, length, drop, replicate, take};
ghost use Rattle.coding.specs.Codes.{code_of};
ghost use Rattle.coding.specs.Coding.{encoded, coding};
ghost use Rattle.coding.specs.Symbols.{numeral, pack_symbols, section};
ghost use Rattle.coding.specs.Writing.{eroded_runs, runs_symbols};
ghost use Rattle.iteration.specs.Bands.{Banded};
ghost use Rattle.iteration.specs.Steps.{Ready};
ghost use Rattle.morphology.specs.Answers.{outcome};
ghost use Rattle.morphology.specs.Element.{offsets, is_element};
ghost use Rattle.morphology.specs.Image.{image_set, is_clean};
ghost use Rattle.raster.specs.Limits.{max_frame};
ghost use Rattle.sections.specs.Pens.{Marked, PenRoom};
ghost use Rattle.encoding.specs.Encoded.{answer_of, written};
ghost use Rattle.encoding.specs.Sizes.{SizeStart, SizeTurned, SizeStepped, Lengths, Gone, Measured};
ghost use Rattle.encoding.specs.Sizes.{lacking_runs, open_runs, ink_runs, symbols_below, sizes_answer};

use raster::Frame;
pub use refusals::Refusal;
use sections::{Measure, Pen, Write};

// The stream of an image that is not empty: its bytes, and the largest size.
#[derive(Clone, Copy, Debug, PartialEq, Eq)]
pub struct Stream {
    pub bytes: u32,
    pub largest: u32,
}

// One size: the runs of the first plane that its opening lacks, after `before` pixels, measured or written, and the plane eroded. Answers where the pen stands.
fn turn<P: Pen>(
    f: Frame,
    q: usize,
    element: u32,
    before: u32,
    at: usize,
    out: &mut [u8],
    work: &mut [u8],
) -> usize
    requires { SizeStart f.w f.h f.r q element work.old × (before + f.w * f.h < 2 ^ 24)
        × PenRoom P.down out.old at (lacking_runs f.w f.h (offsets element) before work.old) }
    ensures { SizeTurned P.down f.w f.h q (offsets element) before work.old work.new out.old out.new at result }
{
    let Frame { h, r, .. } = f;
    planes::open_plane(f, q, element, work);
    let end = sections::walk_plane::<P>(f, q + q, &work[..], at, before, out);
    raster::copy_down(work, q, h * r);
    end
}

// One size on the rows from..to alone, outside of which the first plane is empty.
fn turn_band<P: Pen>(
    f: Frame,
    from: usize,
    to: usize,
    element: u32,
    at: usize,
    out: &mut [u8],
    work: &mut [u8],
) -> usize
    requires { SizeStart f.w f.h f.r (f.h * f.r) element work.old × Banded f.h f.r from to (take (f.h * f.r) work.old)
        × PenRoom P.down out.old at (open_runs f.w f.h (offsets element) work.old) }
    ensures { SizeStepped P.down f.w f.h (f.h * f.r) (offsets element) work.old work.new out.old out.new at result }
{
    let Frame { w, h, r, .. } = f;
    let before = (from * w) as u32;
    let rows = to - from;
    let band = Frame {
        w,
        h: rows,
        r,
        p: rows * r,
    };
    turn::<P>(band, h * r, element, before, at, out, &mut work[from * r..])
}

// One size on the rows that hold ink.
fn take_size<P: Pen>(f: Frame, element: u32, at: usize, out: &mut [u8], work: &mut [u8]) -> usize
    requires { (3 * f.p ≤ length work.old) × T (is_element element) × T (is_clean f.w f.h work.old)
        × PenRoom P.down out.old at (open_runs f.w f.h (offsets element) work.old) }
    ensures { SizeStepped P.down f.w f.h f.p (offsets element) work.old work.new out.old out.new at result }
{
    let Frame { h, r, p, .. } = f;
    let from = raster::bands::first_row(&work[..p], r, 0, h);
    let to = raster::bands::end_row(&work[..p], r, from, h);
    turn_band::<P>(f, from, to, element, at, out, work)
}

// The symbols of a section by those of its runs: commas end it, two where it has none.
fn section_length(runs: usize) -> usize
    requires { runs < 2 ^ 40 }
    ensures { ((rs : List ℕ) → runs ≡ length (runs_symbols rs) → result ≡ length (section (map numeral rs))) × (result ≤ runs + 2) }
{
    if runs == 0 {
        return 2;
    }
    runs + 1
}

// How many sizes there are, and the symbols of all their sections.
#[derive(Clone, Copy)]
struct Total {
    sizes: usize,
    symbols: usize,
}

// The length of each size's section, from size 0 up, until no ink is left.
fn measure(f: Frame, element: u32, lengths: &mut [u32], work: &mut [u8]) -> Total
    requires { (3 * f.p ≤ length work.old) × (length lengths.old ≡ max_frame) × T (is_element element) × T (is_clean f.w f.h work.old) }
    ensures { Measured f.w f.h f.p (offsets element) (image_set f.w f.h work.old) result.sizes lengths.new result.symbols
        work.old work.new }
{
    let Frame { p, .. } = f;
    let mut total = Total {
        sizes: 0,
        symbols: 0,
    };
    while raster::has_ink(&work[..p]) {
        let runs = take_size::<Measure>(f, element, 0, &mut [], work);
        let symbols = section_length(runs);
        lengths[total.sizes] = symbols as u32;
        total.symbols += symbols;
        total.sizes += 1;
    }
    total
}

// The runs of the largest size, which nothing masks, from the stream's start on: the first plane needs no opening. Answers where the pen stands.
fn write_last(f: Frame, out: &mut [u8], work: &mut [u8]) -> usize
    requires { (3 * f.p ≤ length work.old) × PenRoom true out.old 0 (ink_runs f.w f.h work.old) }
    ensures { Marked true (ink_runs f.w f.h work.old) out.old out.new 0 result
        × (length work.new ≡ length work.old) × (drop (3 * f.p) work.new ≡ drop (3 * f.p) work.old) }
{
    let Frame { p, .. } = f;
    work[p + p..3 * p].fill(0);
    sections::walk_plane::<Write>(f, p + p, &work[..], 0, 0, out)
}

// Each size's section, from size 0 up, from the end of the stream on: into as many bytes of 0 as it needs.
fn write_sizes(
    f: Frame,
    element: u32,
    total: Total,
    lengths: &[u32],
    out: &mut [u8],
    work: &mut [u8],
)
    requires { (3 * f.p ≤ length work.old) × (total.sizes ≤ length lengths.now) × T (is_element element) × T (is_clean f.w f.h work.old)
        × Lengths f.w f.h (offsets element) (image_set f.w f.h work.old) total.sizes lengths.now total.symbols × (total.symbols < 2 ^ 40)
        × (out.old ≡ replicate ((total.symbols + 3) / 4) 0) × Gone (offsets element) (image_set f.w f.h work.old) total.sizes }
    ensures { (out.new ≡ pack_symbols (symbols_below (eroded_runs f.w f.h (offsets element) (image_set f.w f.h work.old)) total.sizes))
        × (length work.new ≡ length work.old) × (drop (3 * f.p) work.new ≡ drop (3 * f.p) work.old) }
{
    let Some(last) = total.sizes.checked_sub(1) else {
        return;
    };
    let mut end = total.symbols;
    for length in &lengths[..last] {
        let length = *length as usize;
        end -= length;
        if length == 2 {
            iteration::erode_times(f, element, 1, work);
        } else {
            take_size::<Write>(f, element, end, out, work);
        }
    }
    write_last(f, out, work);
}

// The first pass over an image: the lengths of its sections.
fn measure_image(
    f: Frame,
    element: u32,
    image: &[u8],
    lengths: &mut [u32],
    work: &mut [u8],
) -> Total
    requires { Ready f.w f.h image.now image.now work.old × (length lengths.old ≡ max_frame) × T (is_element element) }
    ensures { Measured f.w f.h f.p (offsets element) (image_set f.w f.h image.now) result.sizes lengths.new result.symbols
        work.old work.new }
{
    let Frame { p, .. } = f;
    raster::copy(image, &mut work[..p]);
    measure(f, element, lengths, work)
}

// The second: the sections, into as many bytes as they need.
fn write_image(
    f: Frame,
    element: u32,
    image: &[u8],
    total: Total,
    lengths: &[u32],
    out: &mut [u8],
    work: &mut [u8],
)
    requires { Ready f.w f.h image.now image.now work.old × (total.sizes ≤ length lengths.now) × T (is_element element)
        × Lengths f.w f.h (offsets element) (image_set f.w f.h image.now) total.sizes lengths.now total.symbols × (total.symbols < 2 ^ 40)
        × (length out.old ≡ (total.symbols + 3) / 4) × Gone (offsets element) (image_set f.w f.h image.now) total.sizes }
    ensures { (out.new ≡ pack_symbols (symbols_below (eroded_runs f.w f.h (offsets element) (image_set f.w f.h image.now)) total.sizes))
        × (length work.new ≡ length work.old) × (drop (3 * f.p) work.new ≡ drop (3 * f.p) work.old) }
{
    let Frame { p, .. } = f;
    raster::copy(image, &mut work[..p]);
    out.fill(0);
    write_sizes(f, element, total, lengths, out, work);
}

// The answer to a stream that was written; an empty image has none.
fn answer(sizes: usize, bytes: usize) -> Option<Stream>
    requires { (sizes ≤ max_frame) × (bytes < 2 ^ 32) }
    ensures { written result ≡ sizes_answer sizes bytes }
{
    if sizes == 0 {
        return None;
    }
    Some(Stream {
        bytes: bytes as u32,
        largest: (sizes - 1) as u32,
    })
}

// An image that rows 1 to 4 let pass, coded into out where there is room.
fn encode_into(
    f: Frame,
    element: u32,
    image: &[u8],
    out: &mut [u8],
    work: &mut [u8],
) -> Result<Option<Stream>, Refusal>
    requires { Ready f.w f.h image.now image.now work.old × T (is_element element) }
    ensures { outcome (answer_of result) (out.new ∷ work.new ∷ [])
        ≡ coding f.w f.h (code_of f.w f.h (offsets element) (image_set f.w f.h image.now)) out.old work.old }
{
    let Frame { p, .. } = f;
    let mut lengths = [0u32; raster::MAX_FRAME];
    let total = measure_image(f, element, image, &mut lengths, work);
    let bytes = (total.symbols + 3) / 4;
    if out.len() < bytes {
        iteration::clear_work(p, work);
        return Err(Refusal::Room);
    }
    write_image(f, element, image, total, &lengths, &mut out[..bytes], work);
    iteration::clear_work(p, work);
    Ok(answer(total.sizes, bytes))
}

// The code of image into out: the sizes of its skeleton, the largest first.
pub fn encode(
    w: u32,
    h: u32,
    element: u32,
    image: &[u8],
    out: &mut [u8],
    work: &mut [u8],
) -> Result<Option<Stream>, Refusal>
    ensures { outcome (answer_of result) (out.new ∷ work.new ∷ [])
        ≡ encoded w h element image.now out.old work.old }
{
    refusals::image_refusal(w, h, element, image, false, &work[..])?;
    let f = Frame::new(w as usize, h as usize);
    encode_into(f, element, image, out, work)
}
