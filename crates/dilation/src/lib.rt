// One dilation with its own answer, over any arguments. Not a public operation of the library: for tests.
#![tactic(auto)]

ghost use Rattle.std.specs.Prelude.{◌≡◌, [], ◌∷◌, T};
ghost use Rattle.morphology.specs.Answers.{outcome};
ghost use Rattle.morphology.specs.Element.{offsets, is_element};
ghost use Rattle.morphology.specs.Falls.{falls_off};
ghost use Rattle.morphology.specs.Image.{clip, image_set};
ghost use Rattle.morphology.specs.Morphology.{dilate as dilate_set};
ghost use Rattle.morphology.specs.Refusals.{first_refusal};
ghost use Rattle.iteration.specs.Steps.{Ready, Wrote};
ghost use Rattle.refusals.specs.Refusal.{refusal_of};
ghost use Rattle.dilation.specs.Dilation.{answer_of, dilate_rows, dilated};

use iteration::Inked;
use raster::Frame;
pub use refusals::Refusal;

// The rows of the table of refusals that a dilation has.
fn dilate_refusal(
    w: u32,
    h: u32,
    element: u32,
    image: &[u8],
    out: &[u8],
    work: &[u8],
) -> Result<(), Refusal>
    ensures { refusal_of result ≡ first_refusal (dilate_rows w h element image.now out.now work.now) }
{
    let out_wrong = refusals::not_plane(w, h, out);
    refusals::image_refusal(w, h, element, image, out_wrong, work)
}

// An image that is not refused, dilated into out and clipped there.
fn dilate_into(f: Frame, element: u32, image: &[u8], out: &mut [u8], work: &mut [u8]) -> Inked
    requires { Ready f.w f.h image.now out.old work.old × T (is_element element) }
    ensures image { Wrote f.w f.h (clip f.w f.h (dilate_set (offsets element) (image_set f.w f.h image.now))) result.area
        out.new work.old work.new }
    ensures clipped { result.clipped ≡ falls_off f.w f.h (offsets element) (image_set f.w f.h image.now) }
{
    let Frame { p, .. } = f;
    raster::copy(image, &mut work[..p]);
    let clipped = iteration::dilate_step(f, element, work);
    Inked {
        area: iteration::hand_out(p, out, work),
        clipped,
    }
}

// A dilation by the element: from image into out. Answers the area on the sheet, and whether a point of it fell off.
pub fn dilate(
    w: u32,
    h: u32,
    element: u32,
    image: &[u8],
    out: &mut [u8],
    work: &mut [u8],
) -> Result<Inked, Refusal>
    ensures { outcome (answer_of result) (out.new ∷ work.new ∷ [])
        ≡ dilated w h element image.now out.old work.old }
{
    dilate_refusal(w, h, element, image, &out[..], &work[..])?;
    let f = Frame::new(w as usize, h as usize);
    Ok(dilate_into(f, element, image, out, work))
}
