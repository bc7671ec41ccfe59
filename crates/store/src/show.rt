// Show: the units of a page, handed back as that part of the caller's image.
ghost use Rattle.std.specs.Prelude.{◌≡◌, length};
ghost use Rattle.lists.specs.Lists.{part};
ghost use Rattle.chip.specs.Geometry.{geometry_of};
ghost use Rattle.pages.specs.Show.{show_length, show_refusal, show_start};

use chip::geometry;
use chip::geometry::Nand;
use pages::show;

// The units of page `at` of a chip of the part named; an empty slice where there are none and with a refusal, 1 or 4.
pub fn show<'a>(nand: Nand, image: &'a [u8], at: u32, refusal: &mut u32) -> &'a [u8]
    ensures shown { result.now ≡ part (show_start (geometry_of nand) image.now at) (show_length (geometry_of nand) image.now at) image.now }
    ensures number { refusal.new ≡ show_refusal (geometry_of nand) (length image.now) at }
{
    let geometry = geometry::geometry_of(nand);
    show::show(geometry, image, at, refusal)
}
