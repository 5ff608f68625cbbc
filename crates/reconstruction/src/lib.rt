// Labels reconstructed in the first plane of work: from the largest size down to a cut.
#![tactic(auto)]

ghost use Rattle.std.specs.Prelude.{false, ◌≡◌, ◌*◌, ◌-◌, ◌<◌, ◌≤◌, length, replicate, take};
ghost use Rattle.morphology.specs.Element.{offsets};
ghost use Rattle.morphology.specs.Falls.{falls_off};
ghost use Rattle.morphology.specs.Image.{image_set};
ghost use Rattle.morphology.specs.Morphology.{times};
ghost use Rattle.morphology.specs.Skeleton.{reconstruction};
ghost use Rattle.label_read.specs.Points.{Tops};
ghost use Rattle.iteration.specs.Steps.{First, Wrote};
ghost use Rattle.reconstruction.specs.Gathered.{GrowStart, Kept, Tame, gathered, grown};

use iteration::Inked;
use raster::Frame;

// One size of a reconstruction: the first plane dilated, and the points with label v joined to it.
// tops holds each row's largest label not above v, and then that below v. Answers whether a point of the dilation fell off.
fn grow(f: Frame, element: u32, v: u8, labels: &[u8], tops: &mut [u8], work: &mut [u8]) -> bool
    requires { GrowStart f.w f.h f.r f.p element v labels.now tops.old work.old }
    ensures work { First f.w f.h f.p (grown f.w f.h (offsets element) labels.now v work.old) work.old work.new }
    ensures tops { Tops f.w f.h (v - 1) labels.now tops.new }
    ensures clipped { result ≡ falls_off f.w f.h (times (offsets element) 1) (image_set f.w f.h work.old) }
{
    let Frame { p, .. } = f;
    let clipped = iteration::dilate_times(f, element, 1, work);
    label_read::add_points(labels, tops, f, v, &mut work[..p]);
    clipped
}

// The sizes from the largest down to the cut, gathered in an empty first plane. Answers whether a point fell off: none does.
fn gather(f: Frame, element: u32, cut: u32, labels: &[u8], work: &mut [u8]) -> bool
    requires { (2 * f.p ≤ length work.old) × Tame f.w f.h element labels.now × (take f.p work.old ≡ replicate f.p 0) }
    ensures work { First f.w f.h f.p (gathered f.w f.h (offsets element) labels.now cut) work.old work.new }
    ensures clipped { result ≡ false }
{
    let Frame { w, h, .. } = f;
    let largest = label_read::greatest(labels) as u32;
    if largest <= cut {
        return false;
    }
    let mut tops = [0u8; raster::MAX_FRAME];
    label_read::row_tops(labels, w, h, &mut tops);
    let mut clipped = false;
    for n in (cut..largest).rev() {
        clipped |= grow(f, element, (n + 1) as u8, labels, &mut tops, work);
    }
    clipped
}

// Labels that are not refused, reconstructed at a cut into image. Nothing fell off.
pub fn reconstruct_into(
    f: Frame,
    element: u32,
    cut: u32,
    labels: &[u8],
    image: &mut [u8],
    work: &mut [u8],
) -> Inked
    requires { Kept f.w f.h element labels.now image.old work.old }
    ensures image { Wrote f.w f.h (reconstruction f.w f.h (offsets element) cut labels.now) result.area
        image.new work.old work.new }
    ensures clipped { result.clipped ≡ false }
{
    let Frame { p, .. } = f;
    work[..p].fill(0);
    let gathered = gather(f, element, cut, labels, work);
    let dilated = iteration::dilate_times(f, element, cut, work);
    Inked {
        area: iteration::hand_out(p, image, work),
        clipped: gathered | dilated,
    }
}
