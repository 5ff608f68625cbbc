// Erosion and opening by n-fold elements, decomposition, reconstruction at a cut: public.
#![tactic(auto)]

ghost use Rattle.std.specs.Prelude.{false, ◌≡◌, [], ◌∷◌, ◌≤◌, T};
ghost use Rattle.morphology.specs.Answers.{outcome};
ghost use Rattle.morphology.specs.Element.{offsets, is_element};
ghost use Rattle.morphology.specs.Image.{image_set};
ghost use Rattle.morphology.specs.Morphology.{erode as erode_set, dilate as dilate_set, times};
ghost use Rattle.morphology.specs.Operations.{eroded, opened, decomposed, reconstructed, fold_rows, decompose_rows, reconstruct_rows};
ghost use Rattle.morphology.specs.Refusals.{first_refusal};
ghost use Rattle.iteration.specs.Steps.{Wrote, Ready};
ghost use Rattle.refusals.specs.Refusal.{answer_of, refusal_of};
ghost use Rattle.skeleton.specs.Decomposed.{answer_of as decomposed_answer};

use iteration::Inked;
use raster::Frame;
use reconstruction::reconstruct_into;
pub use refusals::Refusal;

// The points and the largest size of an image that is not empty.
#[derive(Clone, Copy, Debug, PartialEq, Eq)]
pub struct Skeleton {
    pub points: u32,
    pub largest: u32,
}

// The rows of the table of refusals that an erosion or opening has.
fn fold_refusal(
    w: u32,
    h: u32,
    element: u32,
    n: u32,
    image: &[u8],
    out: &[u8],
    work: &[u8],
) -> Result<(), Refusal>
    ensures { refusal_of result ≡ first_refusal (fold_rows w h element n image.now out.now work.now) }
{
    let out_wrong = refusals::not_plane(w, h, out);
    refusals::image_refusal(w, h, element, image, out_wrong, work)?;
    Refusal::Limit.when(refusals::above_max(n))
}

// An image that is not refused, eroded, then dilated, into out. Nothing fell off.
fn fold_into(
    f: Frame,
    element: u32,
    erosions: u32,
    dilations: u32,
    image: &[u8],
    out: &mut [u8],
    work: &mut [u8],
) -> Inked
    requires { Ready f.w f.h image.now out.old work.old × T (is_element element) × (dilations ≤ erosions) }
    ensures image { Wrote f.w f.h
        (dilate_set (times (offsets element) dilations) (erode_set (times (offsets element) erosions) (image_set f.w f.h image.now)))
        result.area out.new work.old work.new }
    ensures clipped { result.clipped ≡ false }
{
    let Frame { p, .. } = f;
    raster::copy(image, &mut work[..p]);
    iteration::erode_times(f, element, erosions, work);
    let clipped = iteration::dilate_times(f, element, dilations, work);
    Inked {
        area: iteration::hand_out(p, out, work),
        clipped,
    }
}

// Erosion by the n-fold element: from image into out.
pub fn erode(
    w: u32,
    h: u32,
    element: u32,
    n: u32,
    image: &[u8],
    out: &mut [u8],
    work: &mut [u8],
) -> Result<u32, Refusal>
    ensures { outcome (answer_of result) (out.new ∷ work.new ∷ [])
        ≡ eroded w h element n image.now out.old work.old }
{
    fold_refusal(w, h, element, n, image, &out[..], &work[..])?;
    let f = Frame::new(w as usize, h as usize);
    let done = fold_into(f, element, n, 0, image, out, work);
    Ok(done.area)
}

// Opening by the n-fold element: from image into out.
pub fn open(
    w: u32,
    h: u32,
    element: u32,
    n: u32,
    image: &[u8],
    out: &mut [u8],
    work: &mut [u8],
) -> Result<u32, Refusal>
    ensures { outcome (answer_of result) (out.new ∷ work.new ∷ [])
        ≡ opened w h element n image.now out.old work.old }
{
    fold_refusal(w, h, element, n, image, &out[..], &work[..])?;
    let f = Frame::new(w as usize, h as usize);
    let done = fold_into(f, element, n, n, image, out, work);
    Ok(done.area)
}

// The rows of the table of refusals that a decomposition has.
fn decompose_refusal(
    w: u32,
    h: u32,
    element: u32,
    image: &[u8],
    labels: &[u8],
    work: &[u8],
) -> Result<(), Refusal>
    ensures { refusal_of result ≡ first_refusal (decompose_rows w h element image.now labels.now work.now) }
{
    let labels_wrong = refusals::not_places(w, h, labels);
    refusals::image_refusal(w, h, element, image, labels_wrong, work)
}

// Decomposition: the skeleton function of image into labels; an empty image has no points and no largest size.
pub fn decompose(
    w: u32,
    h: u32,
    element: u32,
    image: &[u8],
    labels: &mut [u8],
    work: &mut [u8],
) -> Result<Option<Skeleton>, Refusal>
    ensures { outcome (decomposed_answer result) (labels.new ∷ work.new ∷ [])
        ≡ decomposed w h element image.now labels.old work.old }
{
    decompose_refusal(w, h, element, image, &labels[..], &work[..])?;
    let f = Frame::new(w as usize, h as usize);
    let found = decomposition::decompose_into(f, element, image, labels, work);
    let turns = found.turns;
    if turns == 0 {
        return Ok(None);
    }
    Ok(Some(Skeleton {
        points: found.points,
        largest: turns - 1,
    }))
}

// The rows of the table of refusals that a reconstruction has.
fn reconstruct_refusal(
    w: u32,
    h: u32,
    element: u32,
    cut: u32,
    labels: &[u8],
    image: &[u8],
    work: &[u8],
) -> Result<(), Refusal>
    ensures { refusal_of result ≡ first_refusal (reconstruct_rows w h element cut labels.now image.now work.now) }
{
    let places = refusals::not_places(w, h, labels);
    let plane = refusals::not_plane(w, h, image);
    let planes = refusals::short_work(w, h, work);
    refusals::shape_rows(w, h, element, places, plane, planes)?;
    let wild = containment::is_wild(w as usize, h as usize, element, labels);
    Refusal::Labels.when(wild)?;
    Refusal::Limit.when(refusals::above_max(cut))
}

// Reconstruction at a cut: the sizes from the cut on, from labels into image.
pub fn reconstruct(
    w: u32,
    h: u32,
    element: u32,
    cut: u32,
    labels: &[u8],
    image: &mut [u8],
    work: &mut [u8],
) -> Result<u32, Refusal>
    ensures { outcome (answer_of result) (image.new ∷ work.new ∷ [])
        ≡ reconstructed w h element cut labels.now image.old work.old }
{
    reconstruct_refusal(w, h, element, cut, labels, &image[..], &work[..])?;
    let f = Frame::new(w as usize, h as usize);
    let done = reconstruct_into(f, element, cut, labels, image, work);
    Ok(done.area)
}
