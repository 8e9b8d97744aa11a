// Numbers of a slice, at any place.
#![tactic(auto)]

ghost use Rattle.std.specs.Prelude.{◌≡◌, pos, get_or, set};

// The item at a place; `default` past the end.
// Refused: the first item past the end; the first item always.
pub fn item_at<T: Copy>(items: &[T], at: usize, default: T) -> T
    ensures { result ≡ get_or items.now at default }
{
    if at < items.len() { items[at] } else { default }
}

// The item at a place becomes another; past the end nothing changes.
// Refused: the first item; the last one.
pub fn put_item<T: Copy>(items: &mut [T], at: usize, item: T)
    ensures { items.new ≡ set items.old at item }
{
    if at < items.len() {
        items[at] = item;
    }
}
