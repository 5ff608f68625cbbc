// A sieve of document 01 as running code: what the theorem about lists of sieves speaks of.
#![tactic(auto)]

ghost use Rattle.std.specs.Prelude.{[], ◌∷◌, ◌≡◌};
ghost use Rattle.morphology.specs.Answers.{outcome};
ghost use Rattle.refusals.specs.Refusal.{answer_of};
ghost use Rattle.sieves.specs.Ran.{sieve_outcome};

use refusals::Refusal;

// A sieve at a cut: the image decomposed into labels, and these reconstructed at the cut into the image's own bytes.
pub fn sieve(
    w: u32,
    h: u32,
    element: u32,
    cut: u32,
    image: &mut [u8],
    labels: &mut [u8],
    work: &mut [u8],
) -> Result<u32, Refusal>
    ensures { outcome (answer_of result) (image.new ∷ labels.new ∷ work.new ∷ [])
        ≡ sieve_outcome w h element cut image.old labels.old work.old }
{
    let first = skeleton::decompose(w, h, element, &image[..], labels, work);
    first?;
    skeleton::reconstruct(w, h, element, cut, &labels[..], image, work)
}
