// First fit: the units of a node go into the first page that has room, else into a new one.
ghost use Rattle.std.specs.Prelude.{◌≡◌, cond, ◌-◌, ◌<◌, get_or, length};
ghost use Rattle.journal.specs.PlanCode.{is_marked};
ghost use Rattle.packing.specs.PackingCode.{FirstFit, Assigns};

// The page of a node that has none. No Option: the pages of nodes are an array of words that `plan`, `execution` and `renewal` read
// (docs/DECISIONS.md, 63).
pub const NONE: u32 = 65535;

// The first page that has room for `size` units.
pub fn first_fit(rooms: &[u32], size: u32) -> Option<usize>
    ensures { FirstFit rooms.now size result }
{
    rooms.iter().position(|room| size <= *room)
}

// The units that are written of a node: all where it is written anew, else its own.
pub fn size_of(n: usize, wholes: &[u32], parts: &[u32], forms: &[u32]) -> u32
    requires { (length wholes.now ≡ 256) × (length parts.now ≡ 256) × (length forms.now ≡ 256) × (n < 256) }
    ensures { result ≡ cond (is_marked forms.now n) (get_or wholes.now n 0) (get_or parts.now n 0) }
{
    if forms[n] == 1 { wholes[n] } else { parts[n] }
}

// `size` units of a node put into the first page that has room, else into a new one of `units` units; the number of pages after it.
pub fn assign(
    units: u32,
    n: usize,
    size: u32,
    targets: &mut [u32],
    rooms: &mut [u32],
    count: usize,
) -> usize
    requires { (n < length targets.old) × (count < length rooms.old) × (length rooms.old ≡ 512) }
    ensures { Assigns units n size count rooms.old targets.old result rooms.new targets.new }
{
    match first_fit(&rooms[..count], size) {
        Some(page) => {
            rooms[page] -= size;
            targets[n] = page as u32;
            count
        }
        None => {
            rooms[count] = units.saturating_sub(size);
            targets[n] = count as u32;
            count + 1
        }
    }
}
