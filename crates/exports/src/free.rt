// The test of a page for being free, on lent bytes.
ghost use Rattle.std.specs.Prelude.{◌≡◌};
ghost use Rattle.chip.specs.Page.{is_free};
ghost use Rattle.exports.specs.Words.{bit};

use chip::page;

// Are all bytes of the page 255: 1, else 0. It ends at the first byte that is not.
#[unsafe(no_mangle)]
pub extern "C" fn vehinoke_is_free(page: &[u8]) -> u32
    ensures { result ≡ bit (is_free page.now) }
{
    u32::from(page::is_free(page))
}
