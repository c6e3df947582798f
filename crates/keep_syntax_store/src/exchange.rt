//! Runs of elements that change places, without taking memory.
ghost use Rattle.std.specs.Prelude.{◌≡◌, List, ◌+◌, ◌-◌, ◌≤◌, ◌++◌, length, take, drop, slice_range, vec_len};
ghost use Rattle.std.specs.Prelude.{vec_capacity};

// Moves the elements from `tail` on before those from `from` on.
fn to_start<T>(items: &mut [T], from: usize, tail: usize)
    requires order { from ≤ tail }
    requires within { tail ≤ length items.old }
    ensures { (prefix back : List T) → items.old ≡ prefix ++ back → length prefix ≡ tail
        → items.new ≡ take from prefix ++ (back ++ drop from prefix) }
{
    items[from..].rotate_left(tail - from);
}

// Moves `count` elements from `start` on to the end.
fn to_end<T>(items: &mut [T], start: usize, count: usize)
    requires { start + count ≤ length items.old }
    ensures { (prefix mid back : List T) → items.old ≡ prefix ++ (mid ++ back) → length prefix ≡ start
        → length mid ≡ count → items.new ≡ prefix ++ (back ++ mid) }
{
    items[start..].rotate_left(count);
}

// Of four runs, the last is moved to after the first, and the second to the end.
fn swap_runs<T>(items: &mut [T], from: usize, gone: usize, before: usize)
    requires { (from + gone ≤ before) × (before ≤ length items.old) }
    ensures { (prefix mid back new : List T) → items.old ≡ (prefix ++ (mid ++ back)) ++ new → length prefix ≡ from
        → length mid ≡ gone
        → length prefix + (length mid + length back) ≡ before → items.new ≡ prefix ++ (new ++ (back ++ mid)) }
{
    let added = items.len() - before;
    to_start(items, from, before);
    to_end(items, from + added, gone);
}

// `swap_runs` of the elements of a vector.
fn swap_runs_in<T>(items: &mut Vec<T>, from: usize, gone: usize, before: usize)
    requires { (from + gone ≤ before) × (before ≤ vec_len items.old) }
    ensures items { (prefix mid back new : List T) → items.old.items ≡ (prefix ++ (mid ++ back)) ++ new
        → length prefix ≡ from → length mid ≡ gone
        → length prefix + (length mid + length back) ≡ before → items.new.items ≡ prefix ++ (new ++ (back ++ mid)) }
    ensures len { vec_len items.new ≡ vec_len items.old }
    ensures capacity { vec_capacity items.new ≡ vec_capacity items.old }
{
    swap_runs(items.as_mut_slice(), from, gone, before);
}

// Appends elements for which there is memory.
fn push_all<T: Copy>(items: &mut Vec<T>, more: &[T])
    requires { vec_len items.old + length more.now ≤ vec_capacity items.old }
    ensures items { items.new.items ≡ items.old.items ++ more.now }
    ensures len { vec_len items.new ≡ vec_len items.old + length more.now }
    ensures capacity { vec_capacity items.old ≤ vec_capacity items.new }
{
    let Ok(()) = items.extend_from_slice(more) else {
        unreachable!()
    };
}

// The first so many elements of a vector go to its end.
fn rotate<T>(items: &mut Vec<T>, count: usize)
    requires { count ≤ vec_len items.old }
    ensures items { items.new.items ≡ drop count items.old.items ++ take count items.old.items }
    ensures len { vec_len items.new ≡ vec_len items.old }
    ensures capacity { vec_capacity items.new ≡ vec_capacity items.old }
{
    items.as_mut_slice().rotate_left(count);
}

// The elements `from..to` of a vector and all of another change places. Those from `from` on wait in the other.
fn exchange_through<T: Copy>(items: &mut Vec<T>, from: usize, to: usize, other: &mut Vec<T>)
    requires range { (from ≤ to) × (to ≤ vec_len items.old) }
    requires room { (vec_len items.old + vec_len other.old ≤ vec_capacity items.old)
        × (vec_len other.old + (vec_len items.old - from) ≤ vec_capacity other.old) }
    ensures items { items.new.items ≡ take from items.old.items ++ (other.old.items ++ drop to items.old.items) }
    ensures gone { other.new.items ≡ slice_range items.old.items from to }
    ensures len { (vec_len items.new + (to - from) ≡ vec_len items.old + vec_len other.old)
        × (vec_len other.new ≡ to - from) }
    ensures capacity { (vec_capacity items.old ≤ vec_capacity items.new)
        × (vec_capacity other.old ≤ vec_capacity other.new) }
{
    let added = other.len();
    let gone = to - from;
    push_all(other, &items[from..]);
    items.truncate(from);
    push_all(items, &other[..added]);
    push_all(items, &other[added + gone..]);
    other.truncate(added + gone);
    rotate(other, added);
    other.truncate(gone);
}

// They change places by two rotations of all from `from` on.
fn exchange_in_place<T: Copy>(items: &mut Vec<T>, from: usize, to: usize, other: &mut Vec<T>)
    requires range { (from ≤ to) × (to ≤ vec_len items.old) }
    requires room { (vec_len items.old + vec_len other.old ≤ vec_capacity items.old)
        × (to - from ≤ vec_capacity other.old) }
    ensures items { items.new.items ≡ take from items.old.items ++ (other.old.items ++ drop to items.old.items) }
    ensures gone { other.new.items ≡ slice_range items.old.items from to }
    ensures len { (vec_len items.new + (to - from) ≡ vec_len items.old + vec_len other.old)
        × (vec_len other.new ≡ to - from) }
    ensures capacity { (vec_capacity items.old ≤ vec_capacity items.new)
        × (vec_capacity other.old ≤ vec_capacity other.new) }
{
    let gone = to - from;
    let before = items.len();
    let Ok(()) = items.append(other) else {
        unreachable!()
    };
    let len = items.len() - gone;
    swap_runs_in(items, from, gone, before);
    let Ok(()) = other.extend_from_slice(&items[len..]) else {
        unreachable!()
    };
    items.truncate(len);
}

/// The elements `from..to` of a vector and all of another change places. It takes no memory. Those after them wait in
/// the other if there is room for them.
pub fn exchange<T: Copy>(items: &mut Vec<T>, from: usize, to: usize, other: &mut Vec<T>)
    requires range { (from ≤ to) × (to ≤ vec_len items.old) }
    requires room { (vec_len items.old + vec_len other.old ≤ vec_capacity items.old)
        × (to - from ≤ vec_capacity other.old) }
    ensures items { items.new.items ≡ take from items.old.items ++ (other.old.items ++ drop to items.old.items) }
    ensures gone { other.new.items ≡ slice_range items.old.items from to }
    ensures len { (vec_len items.new + (to - from) ≡ vec_len items.old + vec_len other.old)
        × (vec_len other.new ≡ to - from) }
    ensures capacity { (vec_capacity items.old ≤ vec_capacity items.new)
        × (vec_capacity other.old ≤ vec_capacity other.new) }
{
    let room = other.capacity().saturating_sub(other.len());
    if items.len() - from <= room {
        exchange_through(items, from, to, other);
    } else {
        exchange_in_place(items, from, to, other);
    }
}
