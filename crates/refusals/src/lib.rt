// The tests of the table of refusals that operations share, and their order.
#![tactic(auto)]

ghost use Rattle.std.specs.Prelude.{◌≡◌, ◌*◌, false, not, [], ◌∷◌, ◌<◌, eqb, length};
ghost use Rattle.morphology.specs.Image.{plane_bytes};
ghost use Rattle.morphology.specs.Refusals.{is_side, not_plane, short_planes, short_work, row1, row2, row3, row4, row7, first_refusal};
ghost use Rattle.refusals.specs.Refusal.{number_of, refusal_of};

// Why a call is refused: the rows of the table, in its order.
#[derive(Clone, Copy, Debug, PartialEq, Eq)]
pub enum Refusal {
    Sides,
    Element,
    Lengths,
    Padding,
    Labels,
    Mask,
    Limit,
    Room,
    Stream,
    Rest,
    Map,
}

impl Refusal {
    // The test of a row: refused where it holds.
    pub fn when(self, holds: bool) -> Result<(), Refusal>
        ensures { refusal_of result ≡ first_refusal ((number_of self, holds) ∷ []) }
    {
        if holds { Err(self) } else { Ok(()) }
    }
}

// The row's number.
impl From<Refusal> for u8 {
    ghost from_gives = { λ refusal n. n ≡ number_of refusal };

    fn from(refusal: Refusal) -> u8 {
        match refusal {
            Refusal::Sides => 1,
            Refusal::Element => 2,
            Refusal::Lengths => 3,
            Refusal::Padding => 4,
            Refusal::Labels => 5,
            Refusal::Mask => 6,
            Refusal::Limit => 7,
            Refusal::Room => 8,
            Refusal::Stream => 9,
            Refusal::Rest => 10,
            Refusal::Map => 11,
        }
    }
}

// The largest side, cut and n.
pub const MAX_SIDE: u32 = 255;

fn is_side(n: u32) -> bool
    ensures { result ≡ is_side n }
{
    if n == 0 {
        return false;
    }
    n <= MAX_SIDE
}

// Row 1: a side is 0 or above the largest.
pub fn bad_sides(w: u32, h: u32) -> bool
    ensures { result ≡ (row1 w h).1 }
{
    if !is_side(w) {
        return true;
    }
    !is_side(h)
}

// Row 2: a mask is no structuring element.
pub fn bad_element(mask: u32) -> bool
    ensures { result ≡ (row2 mask).1 }
{
    if mask >= elements::MASK_END {
        return true;
    }
    if mask / elements::ORIGIN % 2 == 0 {
        return true;
    }
    u32::count_ones(mask) < 2
}

// The bytes of an image.
fn plane_bytes(w: u32, h: u32) -> usize
    ensures { result ≡ plane_bytes w h }
{
    h as usize * ((w as usize + 7) / 8)
}

// Row 3: an image is not P bytes.
pub fn not_plane(w: u32, h: u32, s: &[u8]) -> bool
    ensures { result ≡ not_plane w h s.now }
{
    s.len() != plane_bytes(w, h)
}

// Row 3: labels or counters are not W times H.
pub fn not_places<T>(w: u32, h: u32, m: &[T]) -> bool
    ensures { result ≡ not (eqb (length m.now) (w * h)) }
{
    m.len() != w as usize * h as usize
}

// Row 3: work is below k planes.
pub fn short_planes(k: usize, w: u32, h: u32, work: &[u8]) -> bool
    requires { k < 8 }
    ensures { result ≡ short_planes k w h work.now }
{
    work.len() < k * plane_bytes(w, h)
}

// Row 3: work is below 3P bytes.
pub fn short_work(w: u32, h: u32, work: &[u8]) -> bool
    ensures { result ≡ short_work w h work.now }
{
    short_planes(3, w, h, work)
}

// Row 4: an image has a 1 in its padding.
pub fn bad_padding(w: u32, h: u32, s: &[u8]) -> bool
    requires { ((row1 w h).1 ≡ false) × (not_plane w h s.now ≡ false) }
    ensures { result ≡ (row4 w h s.now).1 }
{
    let wide = w as usize;
    !raster::is_clean(s, wide, h as usize, (wide + 7) / 8)
}

// Row 7: a cut, or the n of an erosion or opening, is above the largest.
pub fn above_max(n: u32) -> bool
    ensures { result ≡ (row7 n).1 }
{
    MAX_SIDE < n
}

// Rows 1 and 2.
pub fn sides_and_element(w: u32, h: u32, element: u32) -> Result<(), Refusal>
    ensures { refusal_of result ≡ first_refusal (row1 w h ∷ row2 element ∷ []) }
{
    Refusal::Sides.when(bad_sides(w, h))?;
    Refusal::Element.when(bad_element(element))
}

// Rows 1, 2 and 3 of a call with three buffers, whose lengths are wrong or not.
pub fn shape_rows(w: u32, h: u32, element: u32, a: bool, b: bool, c: bool) -> Result<(), Refusal>
    ensures { refusal_of result ≡ first_refusal (row1 w h ∷ row2 element ∷ row3 (a ∷ b ∷ c ∷ []) ∷ []) }
{
    sides_and_element(w, h, element)?;
    Refusal::Lengths.when(a | (b | c))
}

// Rows 3 and 4 of a call that reads an image and has two other buffers, whose lengths are wrong or not.
pub fn image_rows(w: u32, h: u32, image: &[u8], other: bool, short: bool) -> Result<(), Refusal>
    requires { (row1 w h).1 ≡ false }
    ensures { refusal_of result ≡ first_refusal (row3 (not_plane w h image.now ∷ other ∷ short ∷ []) ∷ row4 w h image.now ∷ []) }
{
    Refusal::Lengths.when(not_plane(w, h, image) | (other | short))?;
    Refusal::Padding.when(bad_padding(w, h, image))
}

// Rows 1 to 4 of a call that reads an image and has work and perhaps another buffer, whose length is wrong or not.
pub fn image_refusal(
    w: u32,
    h: u32,
    element: u32,
    image: &[u8],
    other: bool,
    work: &[u8],
) -> Result<(), Refusal>
    ensures { refusal_of result ≡ first_refusal
        (row1 w h ∷ row2 element ∷ row3 (not_plane w h image.now ∷ other ∷ short_work w h work.now ∷ [])
        ∷ row4 w h image.now ∷ []) }
{
    sides_and_element(w, h, element)?;
    image_rows(w, h, image, other, short_work(w, h, work))
}
