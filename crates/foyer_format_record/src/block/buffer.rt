//! Whole pages: what a record takes in a buffer of entries and on a device.
ghost use Rattle.std.specs.Prelude.{◌≡◌, ◌+◌, ◌^◌, ◌<◌};
ghost use Rattle.foyer_format_layout.specs.Page.{page_up};

pub use foyer_format_code::device_page::io::bytes::PAGE;

/// `len` bytes rounded up to whole pages. The result must fit a `usize`.
#[tactic(auto, unfolding(foyer_format_layout::specs::Page::page_up))]
pub fn whole_pages(len: usize) -> usize
    requires { page_up len < 2 ^ 64 }
    ensures { result ≡ page_up len }
{
    (len + (PAGE - 1)) / PAGE * PAGE
}
