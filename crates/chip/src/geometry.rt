// The geometry of a part, and how many blocks an image has.
ghost use Rattle.std.specs.Prelude.{◌≡◌};
ghost use Rattle.chip.specs.Geometry.{Fits, geometry_of};
ghost use Rattle.chip.specs.GeometryCode.{chip_blocks};

// Bytes of a page's data area and of its spare area, pages of a block, units that a page holds at most.
#[derive(Clone, Copy)]
pub struct Geometry {
    pub area: usize,
    pub spare: usize,
    pub pages: usize,
    pub units: usize,
}

// The NAND of a chip: the small part or the large part.
#[derive(Clone, Copy)]
pub enum Nand {
    Small,
    Large,
}

// The small part: pages of 512 and 16 bytes, 32 pages a block, 42 units a page.
pub const SMALL: Geometry = Geometry {
    area: 512,
    spare: 16,
    pages: 32,
    units: 42,
};

// The large part: pages of 2,048 and 64 bytes, 64 pages a block, 170 units a page.
pub const LARGE: Geometry = Geometry {
    area: 2048,
    spare: 64,
    pages: 64,
    units: 170,
};

// Bytes of the largest data area, for arrays that hold one.
pub const AREA: usize = LARGE.area;

// Pages of the largest block.
pub const BLOCK_PAGES: usize = LARGE.pages;

// Pages of the largest chip: 32 blocks of the large part.
pub const CHIP_PAGES: usize = 32 * BLOCK_PAGES;

// The geometry of a part.
pub fn geometry_of(nand: Nand) -> Geometry
    ensures { (result ≡ geometry_of nand) × Fits result }
{
    match nand {
        Nand::Small => SMALL,
        Nand::Large => LARGE,
    }
}

// The blocks of an image of `len` bytes; none where that is no chip.
pub fn blocks_of(geometry: Geometry, len: usize) -> Option<usize>
    requires { Fits geometry }
    ensures { result ≡ chip_blocks geometry len }
{
    let block = geometry.pages * (geometry.area + geometry.spare);
    let blocks = len / block;
    if (3..=32).contains(&blocks) && blocks * block == len {
        Some(blocks)
    } else {
        None
    }
}
