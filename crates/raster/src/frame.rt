// The frame of a sheet.
ghost use Rattle.std.specs.Prelude.{◌≡◌, ◌+◌, ◌/◌};
ghost use Rattle.raster.specs.Frames.{Frame as IsFrame, Sheet};

// The sides of a sheet, the bytes of a row and those of a plane.
#[derive(Clone, Copy)]
pub struct Frame {
    pub w: usize,
    pub h: usize,
    pub r: usize,
    pub p: usize,
    ghost sheet: { Sheet w h r p },
}

impl Frame {
    // The frame of sides.
    pub fn new(w: usize, h: usize) -> Frame
        requires { IsFrame w h ((w + 7) / 8) }
        ensures { (result.w ≡ w) × (result.h ≡ h) }
    {
        let r = (w + 7) / 8;
        Frame { w, h, r, p: h * r }
    }
}
