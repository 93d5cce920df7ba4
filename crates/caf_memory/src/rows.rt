ghost use Rattle.std.specs.Prelude.{◌≡◌, [], pos, slice_index_or, slice_set, take, drop, ◌+◌, ◌<◌, ◌≤◌, length};
ghost use Rattle.caf_base.specs.Sections.{spliced};
ghost use Rattle.caf_memory.specs.Sized.{lengths_of};

use caf_base::Sequence;

// An object's cells.
pub fn row_of(cells: &[Sequence<i64>], object: usize) -> &[i64]
    ensures { result.now ≡ slice_index_or cells.now object [] }
{
    match cells.get(object) {
        Some(row) => row.as_slice(),
        None => &[],
    }
}

// The number at a place, or 0 past the end.
pub fn number_at(row: &[i64], at: usize) -> i64
    ensures { result ≡ slice_index_or row.now at (pos 0) }
{
    match row.get(at) {
        Some(number) => *number,
        None => 0,
    }
}

// Writes a cell, where it is there.
pub fn put(cells: &mut Vec<Sequence<i64>>, object: usize, at: usize, value: i64)
    ensures { cells.new.items ≡ slice_set cells.old.items object (slice_set (slice_index_or cells.old.items object []) at value) }
{
    if object < cells.len() {
        let row = &mut cells[object];
        if at < row.len() {
            row.set(at, value);
        }
    }
}

// So many numbers from a place on, or fewer where the row ends.
pub fn part(row: &[i64], from: usize, count: usize) -> &[i64]
    ensures { result.now ≡ take count (drop from row.now) }
{
    if row.len() <= from {
        return &[];
    }
    let rest = &row[from..];
    if rest.len() <= count {
        rest
    } else {
        &rest[..count]
    }
}

// Puts numbers in the place of those from a place on.
pub fn overwrite(row: &mut Sequence<i64>, at: usize, values: &[i64])
    requires { at + length values.now ≤ length row.old }
    ensures { row.new ≡ spliced row.old at values.now }
{
    // The end of the row bounds the places.
    let _end = row.len();
    for place in 0..values.len() {
        row.set(at + place, values[place]);
    }
}

// Puts numbers in the place of an object's from a place on.
pub fn put_all(cells: &mut Vec<Sequence<i64>>, object: usize, at: usize, values: &[i64])
    requires object { object < length cells.old.items }
    requires room { at + length values.now ≤ length (slice_index_or cells.old.items object []) }
    ensures cells { cells.new.items ≡ slice_set cells.old.items object (spliced (slice_index_or cells.old.items object []) at values.now) }
    ensures lengths { lengths_of cells.new.items ≡ lengths_of cells.old.items }
{
    let row = &mut cells[object];
    overwrite(row, at, values);
}

// The numbers of posts of an object.
pub fn posts_row(posts: &[Sequence<u32>], object: usize) -> &[u32]
    ensures { result.now ≡ slice_index_or posts.now object [] }
{
    match posts.get(object) {
        Some(row) => row.as_slice(),
        None => &[],
    }
}

// The number of posts at a place, or 0 past the end.
pub fn posts_in(row: &[u32], at: usize) -> u32
    ensures { result ≡ slice_index_or row.now at 0 }
{
    match row.get(at) {
        Some(number) => *number,
        None => 0,
    }
}

// Writes a number of posts, where it is there.
pub fn put_posts(posts: &mut Vec<Sequence<u32>>, object: usize, at: usize, value: u32)
    ensures { posts.new.items ≡ slice_set posts.old.items object (slice_set (slice_index_or posts.old.items object []) at value) }
{
    if object < posts.len() {
        let row = &mut posts[object];
        if at < row.len() {
            row.set(at, value);
        }
    }
}
