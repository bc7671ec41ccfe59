// A line taken as a frame of the probe.
ghost use Rattle.std.specs.Prelude.{◌≡◌};
ghost use Rattle.orders.specs.Orders.{call_of, setting_of, single, ordered};
ghost use Rattle.orders.specs.OrderCode.{Orders};

use chip::geometry::Nand;
use frames::frame;
use frames::frame::Fields;
use frames::line::Line;

// A call with its numbers: an allowance; a key and a value; a key; a block; a page; none.
#[derive(Clone, Copy)]
pub enum Call {
    Format(u32),
    Insert(u32, u32),
    Delete(u32),
    LookUp(u32),
    Commit(u32),
    Mount(u32),
    Rebuild(u32),
    Report(u32),
    Show(u32),
    Forecast,
}

// What is done to the bytes that the calls are lent: so many blocks lent, so many bytes, a byte of the image or a torn byte set at an
// offset, so many torn bytes lent, the sum of the image told, noise from a seed; and the part that format, mount, rebuild and show name.
#[derive(Clone, Copy)]
pub enum Setting {
    Lend(u32),
    Cut(u32),
    SetImage(u32, u32),
    SetTorn(u32, u32),
    LendTorn(u32),
    Sum,
    Noise(u32),
    Name(Nand),
}

// What a frame orders: a call, or a setting of the bytes lent.
#[derive(Clone, Copy)]
pub enum Order {
    Calls(Call),
    Sets(Setting),
}

// The call of a kind and one number.
fn call_of(kind: u32, n: u32) -> Option<Order>
    ensures { result ≡ call_of kind n }
{
    let call = match kind {
        0 => Call::Format(n),
        2 => Call::Delete(n),
        3 => Call::LookUp(n),
        4 => Call::Commit(n),
        5 => Call::Mount(n),
        6 => Call::Report(n),
        7 => Call::Show(n),
        10 => Call::Rebuild(n),
        _ => return None,
    };
    Some(Order::Calls(call))
}

// What a kind and one number do to the bytes lent.
fn setting_of(kind: u32, n: u32) -> Option<Order>
    ensures { result ≡ setting_of kind n }
{
    let setting = match kind {
        16 => Setting::Lend(n),
        17 => Setting::Cut(n),
        20 => Setting::LendTorn(n),
        22 => Setting::Noise(n),
        _ => return None,
    };
    Some(Order::Sets(setting))
}

// The order of a kind and one number.
fn single(kind: u32, n: u32) -> Option<Order>
    ensures { result ≡ single kind n }
{
    if kind < 16 {
        call_of(kind, n)
    } else {
        setting_of(kind, n)
    }
}

// The order of a frame.
fn ordered(fields: Fields) -> Option<Order>
    ensures { result ≡ ordered fields }
{
    match fields {
        Fields::Bare(9) => Some(Order::Calls(Call::Forecast)),
        Fields::Bare(21) => Some(Order::Sets(Setting::Sum)),
        Fields::Named(23, 0) => Some(Order::Sets(Setting::Name(Nand::Small))),
        Fields::Named(23, 1) => Some(Order::Sets(Setting::Name(Nand::Large))),
        Fields::Single(kind, n) => single(kind, n),
        Fields::Marked(18, offset, byte) => Some(Order::Sets(Setting::SetImage(offset, byte))),
        Fields::Marked(19, offset, byte) => Some(Order::Sets(Setting::SetTorn(offset, byte))),
        Fields::Double(1, key, value) => Some(Order::Calls(Call::Insert(key, value))),
        _ => None,
    }
}

// The order of the frame that a line is, none where it is no frame.
pub fn order_of(line: Line) -> Option<Order>
    ensures { Orders line result }
{
    ordered(frame::fields_of(line.bytes()?)?)
}
