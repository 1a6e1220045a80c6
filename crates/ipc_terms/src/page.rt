//! Pages of a list.

ghost use Rattle.std.specs.Prelude.{◌≡◌};
ghost use Rattle.ipc_terms.specs.Pages.{page};

/// The most items of a page.
const LONGEST_PAGE: u16 = 1_000;

/// The items from the position `start` on, counted from 0: at most `count`, and at most 1,000. A page that
/// starts past the last item is empty.
pub fn page_of<T>(items: &[T], start: u64, count: u16) -> &[T]
    ensures { result.now ≡ page start count items.now }
{
    let from = (items.len() as u64).min(start) as usize;
    let (_before, rest) = items.split_at(from);
    let most = rest.len().min(count.min(LONGEST_PAGE) as usize);
    let (asked, _after) = rest.split_at(most);
    asked
}
