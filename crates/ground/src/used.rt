// What a count has in use of an array.
ghost use Rattle.std.specs.Prelude.{◌≡◌, min, take};

// As many as a count says, and no more than the array has.
pub fn in_use(size: usize, count: u8) -> usize
    ensures { result ≡ min size count }
{
    let n = count as usize;
    if n < size { n } else { size }
}

// The part of an array that is in use.
pub fn first<T>(all: &[T], count: u8) -> &[T]
    ensures { result.now ≡ take count all.now }
{
    let n = in_use(all.len(), count);
    &all[..n]
}
