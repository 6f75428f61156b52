// Rule 5 on the bytes of a view: how far the blocks are complete.
//
// A height costs a few byte reads. The rule stops at the first height that it does not pass, and says whether every height
// that it read has a row.
//
// View, chain and downloaded height one by one: three values of three sources.
ghost use Rattle.std.specs.Prelude.{◌≡◌};
ghost use Rattle.model.specs.Sections.{advance_downloaded_height};
ghost use Rattle.model.specs.Lists.{view_of};
ghost use Rattle.heights.specs.Advanced.{advance_of};

use lists::view::View;

// The height reached, and whether every height that was read has a row. Both always count: a height is reached also where one
// was not seen.
#[derive(Clone, Copy)]
pub struct Advance {
    pub height: u32,
    pub seen: bool,
}

// Past each next height, up to chain height, whose header is present and whose sections are all stored.
pub fn advance_downloaded_height(view: View, chain: u32, downloaded: u32) -> Advance
    ensures { advance_of result ≡ advance_downloaded_height (view_of view.entry.bytes.now) chain downloaded }
{
    let first = crate::rows::first_height(view.bytes);
    let count = crate::rows::row_count(view.bytes);
    for height in downloaded..chain {
        let next = height + 1;
        let Some(row) = crate::rows::row_of(first, count, next) else {
            return Advance {
                height,
                seen: false,
            };
        };
        if !crate::rows::is_complete(view.bytes, row) {
            return Advance { height, seen: true };
        }
    }
    Advance {
        height: downloaded.max(chain),
        seen: true,
    }
}
