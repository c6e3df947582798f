//! Elements of a vector that give place to all of another. As many as can change places with new ones where they are,
//! so what follows is moved once at most, and not at all where as many come as go.
ghost use Rattle.std.specs.Prelude.{◌≡◌, List, [], ◌+◌, ◌<◌, ◌≤◌, ◌++◌, length, drop, take, vec_capacity, vec_len};
ghost use Rattle.keep_path.specs.NodesBelow.{spliced};

/// Moves `count` elements from `start` on to the end.
fn to_end<T>(items: &mut [T], start: usize, count: usize)
    requires { start + count ≤ length items.old }
    ensures { (prefix mid back : List T) → items.old ≡ prefix ++ (mid ++ back) → length prefix ≡ start
        → length mid ≡ count → items.new ≡ prefix ++ (back ++ mid) }
{
    items[start..].rotate_left(count);
}

/// So many elements after the first `at` change places with the first of others.
fn exchange<T>(items: &mut [T], at: usize, others: &mut [T], count: usize)
    requires within { at + count ≤ length items.old }
    requires others { count ≤ length others.old }
    ensures items { items.new ≡ spliced at count (take count others.old) items.old }
    ensures others { others.new ≡ take count (drop at items.old) ++ drop count others.old }
{
    items[at..at + count].swap_with_slice(&mut others[..count]);
}

/// Takes away so many elements after the first `at`.
fn remove_run<T: Drop>(items: &mut Vec<T>, at: usize, count: usize)
    requires { at + count ≤ vec_len items.old }
    ensures { items.new.items ≡ spliced at count [] items.old.items }
{
    if count == 1 {
        items.remove(at);
        return;
    }
    let len = items.len() - count;
    to_end(items.as_mut_slice(), at, count);
    items.truncate(len);
}

/// The `gone` elements after the first `at` give place to all of another vector, which has one more. It takes no
/// memory.
fn splice_one_more<T: Drop>(items: &mut Vec<T>, at: usize, gone: usize, mut new: Vec<T>)
    requires within { at + gone ≤ vec_len items.old }
    requires one_more { vec_len new ≡ gone + 1 }
    requires room { vec_len items.old < vec_capacity items.old }
    ensures { items.new.items ≡ spliced at gone new.items items.old.items }
{
    let Some(last) = new.pop() else {
        unreachable!()
    };
    exchange(items.as_mut_slice(), at, new.as_mut_slice(), gone);
    let Ok(()) = items.insert(at + gone, last) else {
        unreachable!()
    };
}

/// The same, where the other vector has at least one more.
fn splice_more<T: Drop>(items: &mut Vec<T>, at: usize, gone: usize, mut new: Vec<T>)
    requires within { at + gone ≤ vec_len items.old }
    requires more { gone < vec_len new }
    requires room { vec_len items.old + vec_len new ≤ vec_capacity items.old }
    ensures { items.new.items ≡ spliced at gone new.items items.old.items }
{
    if new.len() == gone + 1 {
        splice_one_more(items, at, gone, new);
        return;
    }
    let before = items.len();
    let len = before + (new.len() - gone);
    exchange(items.as_mut_slice(), at, new.as_mut_slice(), gone);
    let Ok(()) = items.append(&mut new) else {
        unreachable!()
    };
    to_end(items.as_mut_slice(), at + gone, before - at);
    items.truncate(len);
}

/// The `gone` elements after the first `at` give place to all of another vector. It takes no memory.
pub fn splice_in<T: Drop>(items: &mut Vec<T>, at: usize, gone: usize, mut new: Vec<T>)
    requires within { at + gone ≤ vec_len items.old }
    requires room { vec_len items.old + vec_len new ≤ vec_capacity items.old }
    ensures { items.new.items ≡ spliced at gone new.items items.old.items }
{
    let count = new.len();
    if gone < count {
        splice_more(items, at, gone, new);
        return;
    }
    exchange(items.as_mut_slice(), at, new.as_mut_slice(), count);
    remove_run(items, at + count, gone - count);
}
