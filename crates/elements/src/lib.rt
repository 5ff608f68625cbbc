// Structuring elements as numbers: the bit of the origin, the first number that is none, how far an element goes to each of the four sides.
#![tactic(auto)]

ghost use Rattle.std.specs.Prelude.{◌≡◌, ◌≤◌};
ghost use Rattle.morphology.specs.Element.{offsets};
ghost use Rattle.morphology.specs.Extent.{extent as extent_of};
ghost use Rattle.elements.specs.Lines.{line};
ghost use Rattle.elements.specs.Measures.{measure, Reached};

// The bit of the origin.
pub const ORIGIN: u32 = 4096;

// An element's number is below this.
pub const MASK_END: u32 = 33554432;

// How far an element goes to each of the four sides.
#[derive(Clone, Copy)]
pub struct Reach {
    pub left: usize,
    pub right: usize,
    pub up: usize,
    pub down: usize,
}

// The lines of the square that lie 2 and 1 to one side. A number's last five digits are row 0, and the last digit of each five is column 0.
fn lines(across: bool, forward: bool) -> (u32, u32)
    ensures { (result.0 ≡ line across forward 2) × (result.1 ≡ line across forward 1) }
{
    match (across, forward) {
        (true, true) => (
            0b10000_10000_10000_10000_10000,
            0b01000_01000_01000_01000_01000,
        ),
        (true, false) => (
            0b00001_00001_00001_00001_00001,
            0b00010_00010_00010_00010_00010,
        ),
        (false, true) => (
            0b11111_00000_00000_00000_00000,
            0b00000_11111_00000_00000_00000,
        ),
        (false, false) => (
            0b00000_00000_00000_00000_11111,
            0b00000_00000_00000_11111_00000,
        ),
    }
}

// How far an element goes to one side: along x (across) or y, forward or back.
fn extent(element: u32, across: bool, forward: bool) -> usize
    ensures { (result ≡ extent_of (measure across forward) (offsets element)) × (result ≤ 2) }
{
    let (outer, inner) = lines(across, forward);
    if element & outer != 0 {
        return 2;
    }
    if element & inner != 0 {
        return 1;
    }
    0
}

impl Reach {
    // The reach of an element.
    pub fn of(element: u32) -> Reach
        ensures { Reached result.left result.right result.up result.down (offsets element) }
    {
        Reach {
            left: extent(element, true, false),
            right: extent(element, true, true),
            up: extent(element, false, false),
            down: extent(element, false, true),
        }
    }
}
