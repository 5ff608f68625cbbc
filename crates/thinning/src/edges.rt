// The edge of the sheet, where nothing is hit: the first and the last row, the first and the last pixel of each row.
ghost use Rattle.std.specs.Prelude.{◌≡◌, ◌&&◌, ◌+◌, ◌*◌, ◌<◌, ◌≤◌, length};
ghost use Rattle.raster.specs.Limits.{max_stride};
ghost use Rattle.raster.specs.Rows.{Pixelwise, PlaneIs, row_bit};
ghost use Rattle.thinning.specs.Hits.{inner};

use raster::Frame;

// Clears the first and the last pixel of a row of w.
fn clear_ends(w: usize, row: &mut [u8])
    requires { (1 ≤ w) × (w ≤ 8 * length row.old) × (8 * length row.old < w + 8) × (length row.old ≤ max_stride) }
    ensures { Pixelwise row.old row.new (λ x b. b && inner w x) }
{
    raster::clear_start(row, 1);
    raster::clear_padding(row, w - 1);
}

// Clears what row y of h has on the edge: all of the first and of the last row, the ends of any other.
fn clear_row(f: Frame, y: usize, row: &mut [u8])
    requires { (length row.old ≡ f.r) × (y < f.h) }
    ensures { Pixelwise row.old row.new (λ x b. b && (inner f.w x && inner f.h y)) }
{
    let first = y == 0;
    let last = y + 1 == f.h;
    if first || last {
        row.fill(0);
        return;
    }
    clear_ends(f.w, row);
}

// Clears the edge of a plane.
pub fn clear(f: Frame, plane: &mut [u8])
    requires { (f.h * f.r ≤ length plane.old) }
    ensures { PlaneIs 0 f.r f.h plane.old plane.new
        (λ y x. row_bit plane.old (8 * (0 + y * f.r) + x) && (inner f.w x && inner f.h y)) }
{
    let Frame { h, r, .. } = f;
    for y in 0..h {
        let d = y * r;
        clear_row(f, y, &mut plane[d..d + r]);
    }
}
