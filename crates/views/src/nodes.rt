// The nodes of a chip as its pages hold them.
ghost use Rattle.std.specs.Prelude.{◌≡◌, ◌%◌, length};
ghost use Rattle.chip.specs.Geometry.{Fits, page_size};

use chip::geometry::Geometry;

// The image, for each node the length of its list and the pages in it, and how many nodes there may be.
#[derive(Clone, Copy)]
pub struct Nodes<'a> {
    pub geometry: Geometry,
    pub image: &'a [u8],
    pub lens: &'a [u32; 256],
    pub slots: &'a [u32; 1024],
    pub limit: u32,
    pub ghost fits: { Fits geometry },
    pub ghost whole: { length image.now % page_size geometry ≡ 0 },
}
