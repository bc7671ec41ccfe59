// Forecast.
ghost use Rattle.exports.specs.Calls.{ForecastsTold};

use crate::words;
use store::forecast;

// Forecast: the refusal, and in `ops` the operations that a commit made now would tell: data programs, marks set, erases; zeros with a refusal.
#[unsafe(no_mangle)]
pub extern "C" fn vehinoke_forecast<'a>(
    numbers: &[u32; 6],
    lens: &'a [u32; 256],
    slots: &'a [u32; 1024],
    buffer: &'a [u8; 11520],
    image: &[u8],
    ops: &mut [u32; 3],
) -> u32
    ensures { ForecastsTold numbers.now buffer.now lens.now slots.now image.now result ops.new }
{
    let n = words::load(numbers);
    match forecast::forecast_lent(n, lens, slots, buffer, image) {
        Ok(foretold) => {
            *ops = [foretold.programs, foretold.marks, foretold.erases];
            0
        }
        Err(refusal) => {
            *ops = [0, 0, 0];
            u32::from(refusal)
        }
    }
}
