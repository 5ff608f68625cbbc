// Minimisation, "shortening" in 01: public.
#![tactic(auto)]

mod bands;
mod covers;
mod places;
mod sizes;
mod walks;

ghost use Rattle.std.specs.Prelude.{◌≡◌, false, [], ◌∷◌};
ghost use Rattle.morphology.specs.Answers.{outcome};
ghost use Rattle.morphology.specs.Operations.{minimised, minimise_rows};
ghost use Rattle.morphology.specs.Refusals.{first_refusal};
ghost use Rattle.refusals.specs.Refusal.{answer_of, refusal_of};
ghost use Rattle.minimal.specs.Minimised.{Passed, Shortened};

use raster::Frame;
pub use refusals::Refusal;

// What minimisation leaves: the points, and whether a point of a shape fell off on the way.
#[derive(Clone, Copy)]
struct Shorter {
    points: u32,
    clipped: bool,
}

// The rows of the table of refusals that a minimisation has.
fn minimise_refusal(
    w: u32,
    h: u32,
    element: u32,
    labels: &[u8],
    work: &[u8],
    counters: &[u16],
) -> Result<(), Refusal>
    ensures { refusal_of result ≡ first_refusal (minimise_rows w h element labels.now work.now counters.now) }
{
    let places = refusals::not_places(w, h, labels);
    let planes = refusals::short_work(w, h, work);
    let counts = refusals::not_places(w, h, counters);
    refusals::shape_rows(w, h, element, places, planes, counts)?;
    let wild = containment::is_wild(w as usize, h as usize, element, labels);
    Refusal::Labels.when(wild)
}

// Labels that are not refused, minimised. Answers the points left, and whether a shape was clipped: none is.
fn minimise_into(
    f: Frame,
    element: u32,
    labels: &mut [u8],
    work: &mut [u8],
    counters: &mut [u16],
) -> Shorter
    requires { Passed f.w f.h element labels.old work.old counters.old }
    ensures done { Shortened f.w f.h element labels.old work.old
        result.points labels.new work.new counters.new }
    ensures clipped { result.clipped ≡ false }
{
    let Frame { p, .. } = f;
    let a = sizes::tallest(&labels[..]);
    let top = labels[a] as usize;
    let counted = sizes::count_up(f, element, a, top, &labels[..], work, counters);
    let walked = walks::walk(f, element, a, top, labels, work, counters);
    counters.fill(0);
    iteration::clear_work(p, work);
    let points = sizes::points_of(&labels[..]);
    Shorter {
        points,
        clipped: counted | walked,
    }
}

// Minimisation: the points that other points cover are dropped from labels, by size and place. Answers the points left.
pub fn minimise(
    w: u32,
    h: u32,
    element: u32,
    labels: &mut [u8],
    work: &mut [u8],
    counters: &mut [u16],
) -> Result<u32, Refusal>
    ensures { outcome (answer_of result) (labels.new ∷ work.new ∷ counters.new ∷ [])
        ≡ minimised w h element labels.old work.old counters.old }
{
    minimise_refusal(w, h, element, &labels[..], &work[..], &counters[..])?;
    let f = Frame::new(w as usize, h as usize);
    let shorter = minimise_into(f, element, labels, work, counters);
    Ok(shorter.points)
}
