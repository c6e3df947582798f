//! The numbers of the nodes once the last one takes the number of an earlier one.
ghost use Rattle.std.specs.Prelude.{◌≡◌, ◌≤◌, ◌<◌, ◌∷◌, ◌++◌, [], All, List, drop, length, map, take, vec_len};
ghost use Rattle.keep_index_store.specs.Moved.{moved_number, with_last_at};

/// The number of the node `id` once the last node, which is `last`, has the number `at`: each from there on has one
/// more.
pub fn number_then(id: usize, last: usize, at: usize) -> usize
    requires { id ≤ last }
    ensures { result ≡ moved_number last at id }
{
    if id == last {
        at
    } else if id < at {
        id
    } else {
        id + 1
    }
}

/// Gives each of these nodes the number that it has then.
pub fn renumber_all(ids: &mut [usize], last: usize, at: usize)
    requires { All (λ id. id ≤ last) ids.old }
    ensures { ids.new ≡ map (moved_number last at) ids.old }
{
    for id in ids.iter_mut() {
        *id = number_then(*id, last, at);
    }
}

/// Moves the last element to that place.
fn rotate_last<T>(items: &mut [T], at: usize)
    requires { at < length items.old }
    ensures { (front : List T) (last : T) → items.old ≡ front ++ last ∷ []
        → items.new ≡ take at front ++ last ∷ drop at front }
{
    let last = items.len() - 1;
    items[at..].rotate_left(last - at);
}

/// Moves the last element to that place. It takes no memory.
pub fn move_last_to<T>(items: &mut Vec<T>, at: usize)
    requires { at < vec_len items.old }
    ensures moved { (none : T) → items.new.items ≡ with_last_at none items.old.items at }
    ensures len { vec_len items.new ≡ vec_len items.old }
{
    rotate_last(items.as_mut_slice(), at);
}
